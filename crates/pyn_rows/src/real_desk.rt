// Files are read as they were written.
use pyn_base::{Desk, DeskFail, RealDesk};
use std::test::Fail;

#[test]
fn a_file_is_read_back(rt: HostRuntime) -> Result<(), Fail> {
    let alloc = rt.alloc();
    let mut desk = RealDesk::new(rt.clone()?);
    desk.write(alloc, "some.txt", b"some bytes")?;
    let bytes = desk.read(alloc, "some.txt", 10)?;
    assert!(rt; bytes.as_slice() == b"some bytes".as_slice());
    assert_eq!(rt;
        desk.read(alloc, "some.txt", 9).err(),
        Some(DeskFail::TooLong)
    );
    assert_eq!(rt; desk.faults(), 0);
    assert_eq!(rt;
        desk.read(alloc, "none.txt", 9).err(),
        Some(DeskFail::Failed)
    );
    assert_eq!(rt; desk.faults(), 1);
    Ok(())
}
