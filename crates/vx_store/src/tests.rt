//! Stores that fail where it is listed, and real files.
use crate::real_files::read_part;
use crate::{FolderStore, MemoryStore, Store, StoreError};
use std::alloc::{AllocError, Global};
use std::fs;
use std::test::Fail;

#[test]
fn what_was_appended_is_read_back(rt: HostRuntime) -> Result<(), Fail> {
    let alloc = rt.alloc();
    let mut store = MemoryStore::new(alloc, Vec::new(alloc));
    let file = store.create()?;
    assert_eq!(rt; store.append(file, b"first"), Ok(0));
    assert_eq!(rt; store.append(file, b" and more"), Ok(5));
    let mut bytes = Vec::new(alloc);
    assert_eq!(rt; store.read(file, 3, 7, &mut bytes), Ok(()));
    assert_eq!(rt; bytes.as_slice(), b"st and ".as_slice());
    assert_eq!(rt;
        store.read(file, 0, 15, &mut bytes),
        Err(StoreError::Failed)
    );
    assert_eq!(rt; store.faults(), 1);
    assert_eq!(rt; store.remove(file), Ok(()));
    Ok(())
}

/// Which of four calls fails where that of this number is to fail.
fn failing_call(alloc: Global, number: u64) -> Result<u64, AllocError> {
    let mut store = MemoryStore::new(alloc, vec![in alloc; number]?);
    let Ok(file) = store.create() else {
        return Ok(0);
    };
    if store.append(file, b"ab") != Ok(0) {
        return Ok(1);
    }
    let mut bytes = Vec::new(alloc);
    if store.read(file, 0, 2, &mut bytes) != Ok(()) {
        return Ok(2);
    }
    if store.remove(file) != Ok(()) {
        return Ok(3);
    }
    Ok(4)
}

#[test]
fn just_the_listed_call_fails(rt: HostRuntime) -> Result<(), Fail> {
    for number in 0..5 {
        assert_eq!(rt;
            failing_call(rt.alloc(), number)?,
            number,
            "of call {number}"
        );
    }
    Ok(())
}

const FOLDER: &str = "vxspill";

#[test]
fn real_files_are_made_filled_read_and_removed(rt: HostRuntime) -> Result<(), Fail> {
    let alloc = rt.alloc();
    let _ = fs::remove_dir_all(&rt, FOLDER);
    let mut store = FolderStore::new(alloc, rt, 7);
    let file = store.create()?;
    assert_eq!(rt; store.append(file, b"first"), Ok(0));
    assert_eq!(rt; store.append(file, b" and more"), Ok(5));
    assert_eq!(rt;
        fs::read(&rt, "vxspill/7-0.bin")?.as_slice(),
        b"first and more".as_slice()
    );
    let mut bytes = Vec::new(alloc);
    assert_eq!(rt; store.read(file, 3, 7, &mut bytes), Ok(()));
    assert_eq!(rt; bytes.as_slice(), b"st and ".as_slice());
    assert_eq!(rt; store.read(file, 8, 7, &mut bytes), Err(StoreError::Failed));
    assert_eq!(rt; store.remove(file), Ok(()));
    assert_eq!(rt; store.remove(file), Err(StoreError::Failed));
    assert_eq!(rt; store.faults(), 2);
    fs::remove_dir(&rt, FOLDER)?;
    Ok(())
}

#[test]
fn a_folder_that_cannot_be_made_is_a_fault(rt: HostRuntime) -> Result<(), Fail> {
    let alloc = rt.alloc();
    let _ = fs::remove_dir_all(&rt, FOLDER);
    fs::write(&rt, FOLDER, b"a file".as_slice())?;
    let mut store = FolderStore::new(alloc, rt, 7);
    assert_eq!(rt; store.create(), Err(StoreError::Failed));
    assert_eq!(rt; store.faults(), 1);
    fs::remove_file(&rt, FOLDER)?;
    Ok(())
}

#[test]
fn a_reader_gives_the_bytes_that_are_asked_for(rt: HostRuntime) -> Result<(), Fail> {
    let mut bytes = Vec::new(rt.alloc());
    let mut reader = b"abcde".as_slice();
    assert_eq!(rt; read_part(&mut reader, 3, &mut bytes), Ok(()));
    assert_eq!(rt; bytes.as_slice(), b"abc".as_slice());
    assert_eq!(rt;
        read_part(&mut reader, 3, &mut bytes),
        Err(StoreError::Failed)
    );
    Ok(())
}

#[test]
fn two_real_files_grow_in_turn_and_one_goes(rt: HostRuntime) -> Result<(), Fail> {
    let alloc = rt.alloc();
    let _ = fs::remove_dir_all(&rt, FOLDER);
    let mut store = FolderStore::new(alloc, rt, 8);
    let first = store.create()?;
    let second = store.create()?;
    for _ in 0..3 {
        assert!(rt; store.append(first, b"ab").is_ok());
        assert!(rt; store.append(second, b"xyz").is_ok());
    }
    assert_eq!(rt;
        fs::read(&rt, "vxspill/8-0.bin")?.as_slice(),
        b"ababab".as_slice()
    );
    assert_eq!(rt;
        fs::read(&rt, "vxspill/8-1.bin")?.as_slice(),
        b"xyzxyzxyz".as_slice()
    );
    assert_eq!(rt; store.remove(first), Ok(()));
    assert!(rt; fs::read(&rt, "vxspill/8-0.bin").is_err());
    assert_eq!(rt; store.faults(), 0);
    fs::remove_dir_all(&rt, FOLDER)?;
    assert_eq!(rt; store.append(second, b"xyz"), Err(StoreError::Failed));
    assert_eq!(rt; store.faults(), 1);
    Ok(())
}
