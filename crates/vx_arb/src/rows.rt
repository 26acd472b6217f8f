//! The live jobs, the admissions, and the request that stands.
ghost use Rattle.std.specs.Prelude.{◌≡◌, ◌==◌, position};
ghost use Rattle.vx_arb.specs.Rows.{is_live, capacity_at, max_at, max_in, with_capacity, without, is_largest, one_less};

/// A live job, with the greatest capacity that it may have and the one that it has, in bytes.
#[derive(Clone, Copy, Debug, PartialEq, Eq)]
pub struct Live {
    pub job: u32,
    pub max: u64,
    pub capacity: u64,
}

/// An admission of a job.
#[derive(Clone, Copy, Debug, PartialEq, Eq)]
pub struct Admitted {
    pub job: u32,
    pub max: u64,
    /// The length of the log at the admission.
    pub at: u64,
}

/// The request that stands.
#[derive(Clone, Copy, Debug, PartialEq, Eq)]
pub struct Standing {
    pub number: u64,
    pub job: u32,
    /// The capacity that the job lacks, and the capacity that it would have with it.
    pub need: u64,
    pub would: u64,
    /// How many more shrinks and reclaims the request may make.
    pub left: u64,
}

// Where the row of a job stands.
fn place_of(live: &[Live], job: u32) -> Option<usize>
    ensures { result ≡ position (λ (row : Live). row.job == job) live.now }
{
    live.iter().position(|row| row.job == job)
}

pub fn holds_job(live: &[Live], job: u32) -> bool
    ensures { result ≡ is_live live.now job }
{
    live.iter().any(|row| row.job == job)
}

pub fn capacity_in(live: &[Live], job: u32) -> u64
    ensures { result ≡ capacity_at live.now job }
{
    match place_of(live, job) {
        Some(place) => live[place].capacity,
        None => 0,
    }
}

pub fn max_where_live(live: &[Live], job: u32) -> Option<u64>
    ensures { result ≡ max_at live.now job }
{
    match place_of(live, job) {
        Some(place) => Some(live[place].max),
        None => None,
    }
}

pub fn max_for(live: &[Live], job: u32) -> u64
    ensures { result ≡ max_in live.now job }
{
    max_where_live(live, job).unwrap_or(0)
}

pub fn set_capacity(live: &mut Vec<Live>, job: u32, capacity: u64)
    ensures { live.new.items ≡ with_capacity live.old.items job capacity }
{
    if let Some(place) = place_of(live, job) {
        live[place].capacity = capacity;
    }
}

pub fn take_out(live: &mut Vec<Live>, job: u32)
    ensures { live.new.items ≡ without live.old.items job }
{
    if let Some(place) = place_of(live, job) {
        live.remove(place);
    }
}

// Whether the job has the largest capacity, and among equals the greatest number.
pub fn has_largest(live: &[Live], job: u32) -> bool
    ensures { result ≡ is_largest live.now job }
{
    let capacity = capacity_in(live, job);
    live.iter().all(|row| row.capacity < capacity || (row.capacity == capacity && row.job <= job))
}

pub fn with_one_less(standing: Option<Standing>) -> Option<Standing>
    ensures { result ≡ one_less standing }
{
    let standing = standing?;
    Some(Standing {
        left: standing.left.saturating_sub(1),
        ..standing
    })
}
