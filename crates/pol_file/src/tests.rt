use crate::{FileDisk, Unknown};
use pol_disk::Disk;
use std::fs;
use std::os::unix::fs::symlink;
use std::test::Fail;

const FOLDER: &str = "pol_file_test";

const PATH: &str = "pol_file_test/pol.journal";

const ELSEWHERE: &str = "pol_file_test/elsewhere";

// The file's length and its bytes, as a disk that was opened anew shows them.
fn held(rt: &HostRuntime) -> (Option<u64>, [u8; 8]) {
    let mut disk = FileDisk::new(rt, PATH, FOLDER, Unknown);
    let mut bytes = [0; 8];
    let size = disk.len().ok();
    if let Some(1..) = size {
        let _some = disk.read(0, &mut bytes);
    }
    (size, bytes)
}

// Whether a disk that is opened anew can be had, and whether it is in use.
fn opened(rt: &HostRuntime) -> (bool, bool) {
    let mut disk = FileDisk::new(rt, PATH, FOLDER, Unknown);
    let is_open = disk.len().is_ok();
    (is_open, disk.is_in_use())
}

// Writes a piece at a place within the file, or at its end, and syncs it.
fn put(disk: &mut FileDisk<'_, Unknown>, at: u64, piece: &[u8]) -> bool {
    match disk.len() {
        Ok(size) if at <= size => disk.write_at(at, piece).is_ok() && disk.sync().is_ok(),
        _ => false,
    }
}

// Each row is written and synced on a disk of its own, and looked at on the next.
#[test]
fn what_was_synced_is_there_for_the_next_disk(rt: HostRuntime) -> Result<(), Fail> {
    let _ = fs::remove_dir_all(&rt, FOLDER);
    fs::create_dir(&rt, FOLDER)?;
    let rows: [(u64, &[u8], u64, [u8; 8]); 4] = [
        (0, b"abcd", 4, *b"abcd\0\0\0\0"),
        (1, b"XY", 4, *b"aXYd\0\0\0\0"),
        (4, b"ef", 6, *b"aXYdef\0\0"),
        (5, b"GHI", 8, *b"aXYdeGHI"),
    ];
    assert_eq!(rt; held(&rt), (Some(0), [0; 8]));
    for (at, piece, size, bytes) in rows {
        let mut disk = FileDisk::new(&rt, PATH, FOLDER, Unknown);
        assert!(rt; put(&mut disk, at, piece));
        drop(disk);
        assert_eq!(rt; held(&rt), (Some(size), bytes));
    }
    fs::remove_dir_all(&rt, FOLDER)?;
    Ok(())
}

#[test]
fn a_folder_has_one_disk_at_a_time(rt: HostRuntime) -> Result<(), Fail> {
    let _ = fs::remove_dir_all(&rt, FOLDER);
    fs::create_dir(&rt, FOLDER)?;
    let mut disk = FileDisk::new(&rt, PATH, FOLDER, Unknown);
    assert!(rt; disk.len().is_ok());
    assert_eq!(rt; opened(&rt), (false, true));
    fs::rename(&rt, PATH, ELSEWHERE)?;
    assert_eq!(rt; opened(&rt), (false, true));
    assert!(rt; !fs::exists(&rt, PATH)?);
    drop(disk);
    assert_eq!(rt; opened(&rt), (true, false));
    fs::remove_file(&rt, PATH)?;
    symlink(&rt, "elsewhere", PATH)?;
    assert_eq!(rt; opened(&rt), (false, false));
    fs::remove_dir_all(&rt, FOLDER)?;
    Ok(())
}
