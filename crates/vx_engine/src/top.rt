//! The top call: all that the program does.

ghost use Rattle.std.specs.Prelude.{◌≡◌, ◌≢◌, ◌≤◌, ◌⊎◌, true, IfSome, IsSomeAnd};
ghost use Rattle.vx_base.specs.Causes.{Rose};
ghost use Rattle.vx_host.specs.Host.{KeepsFiles};
ghost use Rattle.vx_host.specs.declared.host.To.TheVariants.{Output, Errors};
ghost use Rattle.vx_engine.specs.Run.{is_status, told_file, IsUnreadable, IsRefused, Says, SaysUnread, SaysRefusal, PrintsRows, PrintsFault, PrintsFront, GoesOn, bad_words_line, no_memory_line};
ghost use Rattle.vx_engine.specs.Words.{AsksForUnbuilt, asked, name_of};

use crate::run::run_words;
use crate::stop::{BAD_WORDS, DONE, FAULTED, NO_MEMORY, NOT_READ, NOT_WRITTEN, REFUSED};
use std::alloc::Global;
use std::sync::Wait;
use std::thread::Threads;
use vx_host::{Gate, Host};

/// Runs the plan file that the words name, and answers the program's status.
///
/// Word 0 is the program's name. The host's output gets `== 0 NAME` and then `ok N` and N rows as compact
/// JSON, or the fault that the plan met; or its errors get one line. Each line is ended by a line feed. That a write to the
/// errors fails changes nothing, and the line is whole where none failed or wanted memory.
/// `rt` and the gate are for the workers of later commands; nothing is started or waited for today.
pub fn vxrun<R: Threads + Wait + Sync, H: Host, G: Gate + Sync>(
    _rt: &R,
    alloc: Global,
    words: &[String],
    host: &mut H,
    _gate: &G,
) -> u8
    ensures statuses { is_status result ≡ true }

    // Words are bad only where they have no settings or ask for what isn't built yet, and there always.
    ensures bad_words { result ≡ BAD_WORDS → IfSome (asked words.now) AsksForUnbuilt }
    ensures bad_words_always { IfSome (asked words.now) AsksForUnbuilt
        → result ≢ NO_MEMORY → result ≡ BAD_WORDS }
    ensures bad_words_said { result ≡ BAD_WORDS
        → Says (H.sink host.old Errors) (H.sink host.new Errors) bad_words_line }

    // A file isn't read only where its read failed or it is too big, and the line says which.
    ensures not_read { result ≡ NOT_READ → IsSomeAnd (name_of words.now)
        (SaysUnread (H.files host.old) (H.files host.new) (H.sink host.old Errors) (H.sink host.new Errors)) }
    // Where no read is to fail, that is exactly where nothing or too much stands under the name.
    ensures unreadable_only { result ≡ NOT_READ → (H.files host.old).unfailing ≡ true
        → IfSome (told_file (H.files host.old) (name_of words.now)) IsUnreadable }
    ensures unreadable { IsSomeAnd (told_file (H.files host.old) (name_of words.now)) IsUnreadable
        → result ≢ NO_MEMORY → result ≡ NOT_READ }

    // A file that was read is refused exactly where its bytes are no plan, and the line says why.
    ensures refused { result ≡ REFUSED → IsSomeAnd (name_of words.now)
        (SaysRefusal (H.files host.old) (H.sink host.old Errors) (H.sink host.new Errors)) }
    ensures refused_always { IsSomeAnd (told_file (H.files host.old) (name_of words.now)) IsRefused
        → result ≢ NO_MEMORY → result ≢ NOT_READ → result ≡ REFUSED }

    // The output fails only where its count rose, and never where no write is to fail.
    ensures not_written { result ≡ NOT_WRITTEN
        → Rose (H.sink host.old Output).faults (H.sink host.new Output).faults }
    ensures written { (H.sink host.old Output).unfailing ≡ true → result ≢ NOT_WRITTEN }

    // What was written is an answer of the file's plan, a fault that it can meet, or a front of one of these.
    ensures printed { result ≡ DONE → IsSomeAnd (name_of words.now)
        (PrintsRows (H.files host.old) (H.sink host.old Output) (H.sink host.new Output)) }
    ensures faulted { result ≡ FAULTED → IsSomeAnd (name_of words.now)
        (PrintsFault (H.files host.old) (H.sink host.old Output) (H.sink host.new Output)) }
    ensures cut_short { result ≡ NOT_WRITTEN → IsSomeAnd (name_of words.now)
        (PrintsFront (H.files host.old) (H.sink host.old Output) (H.sink host.new Output)) }
    ensures out_of_memory { result ≡ NO_MEMORY → (H.sink host.new Output ≡ H.sink host.old Output)
        ⊎ IsSomeAnd (name_of words.now)
        (PrintsFront (H.files host.old) (H.sink host.old Output) (H.sink host.new Output)) }
    ensures untouched { (result ≡ BAD_WORDS) ⊎ (result ≡ REFUSED) ⊎ (result ≡ NOT_READ)
        → H.sink host.new Output ≡ H.sink host.old Output }

    ensures out_of_memory_said { result ≡ NO_MEMORY
        → Says (H.sink host.old Errors) (H.sink host.new Errors) no_memory_line }
    ensures quiet { (result ≡ DONE) ⊎ (result ≡ FAULTED) ⊎ (result ≡ NOT_WRITTEN)
        → H.sink host.new Errors ≡ H.sink host.old Errors }

    // The files stay. Counts never fall, and what has no call that is still to fail has none afterwards.
    ensures files_stay { KeepsFiles (H.files host.old) (H.files host.new) }
    ensures files_later { (H.files host.old).faults ≤ (H.files host.new).faults }
    ensures out_later { GoesOn (H.sink host.old Output) (H.sink host.new Output) }
    ensures err_later { GoesOn (H.sink host.old Errors) (H.sink host.new Errors) }
{
    run_words(alloc, words, host)
}
