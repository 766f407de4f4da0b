// What a writer appends, and what it refuses and leaves.
use refusal::Refusal;
use runlist::{Command, Writer, read_list, write_list};
use std::test::Fail;

const OPEN: Command<'static> = Command::Open(b"\x02\x01NS");

#[test]
fn appends_and_refusals(rt: HostRuntime) {
    let mut buffer = [0xeeu8; 8];
    let mut writer = Writer::new(&mut buffer);
    assert_eq!(rt;
        writer.append(Command::Collect(b"")),
        Err(Refusal::OpenMisplaced),
        "open comes first"
    );
    assert_eq!(rt;
        writer.append(Command::Open(b"\x02\x01N")),
        Err(Refusal::CutShort)
    );
    assert_eq!(rt;
        writer.append(Command::Request(b"\x00\x00\x00")),
        Err(Refusal::CutShort),
        "a width of 3 for 2"
    );
    assert_eq!(rt;
        writer.append(Command::Request(b"\x00")),
        Err(Refusal::CutShort),
        "2 comes before 3"
    );
    assert_eq!(rt; writer.len(), 0);
    assert_eq!(rt; writer.append(OPEN), Ok(()));
    assert_eq!(rt;
        writer.append(OPEN),
        Err(Refusal::OpenMisplaced),
        "open again"
    );
    assert_eq!(rt; writer.append(Command::Fault(b"\x01")), Ok(()));
    assert_eq!(rt; writer.len(), 7);
    assert_eq!(rt;
        writer.append(Command::Fault(b"\x01")),
        Err(Refusal::NoRoom)
    );
    assert_eq!(rt;
        writer.append(Command::Resume(b"")),
        Ok(()),
        "the last byte is used"
    );
    assert_eq!(rt; writer.append(Command::Resume(b"")), Err(Refusal::NoRoom));
    assert_eq!(rt; writer.len(), 8);
    assert_eq!(rt; buffer, [b'O', 2, 1, b'N', b'S', b'F', 1, b'R']);
}

#[test]
fn one_byte_short(rt: HostRuntime) {
    let mut buffer = [0xeeu8; 4];
    let written = write_list(&[OPEN], &mut buffer);
    assert_eq!(rt;
        written.map_err(|e| (e.why.number(), e.offset)),
        Err((23, 0))
    );
    assert_eq!(rt;
        buffer,
        [0xee, 0xee, 0xee, 0xee],
        "nothing is written of a command that does not fit"
    );
    let mut room = [0xeeu8; 6];
    let written = write_list(&[OPEN, Command::Collect(b"")], &mut room);
    assert_eq!(rt; written, Ok(6));
    assert_eq!(rt; room, [b'O', 2, 1, b'N', b'S', b'G']);
}

// Too long comes before a wrong width, and a list may fill its 65,536 bytes.
#[test]
fn longest_list(rt: HostRuntime) -> Result<(), Fail> {
    let mut buffer = vec![in rt.alloc(); 0u8; 70_000]?;
    let mut writer = Writer::new(buffer.as_mut_slice());
    assert_eq!(rt; writer.append(OPEN), Ok(()));
    for _ in 0..65_531u32 {
        assert_eq!(rt; writer.append(Command::Collect(b"")), Ok(()));
    }
    assert_eq!(rt; writer.len(), 65_536);
    assert_eq!(rt;
        writer.append(Command::Collect(b"")),
        Err(Refusal::ListTooLong)
    );
    assert_eq!(rt;
        writer.append(Command::Fault(b"")),
        Err(Refusal::ListTooLong),
        "8 comes before 2"
    );
    assert_eq!(rt; writer.len(), 65_536);
    Ok(())
}

#[test]
fn there_and_back(rt: HostRuntime) -> Result<(), Fail> {
    let list = b"O\x02\x01NSS\x00\x01\x00\x00\x00\x00\x00\x00\x00\x07M\x00\x00\x00\x01\x00F\x00R";
    let commands = read_list(rt.alloc(), list)?;
    assert_eq!(rt; commands.len(), 5);
    let mut buffer = [0u8; 25];
    assert_eq!(rt; write_list(commands.as_slice(), &mut buffer), Ok(25));
    assert_eq!(rt; buffer.as_slice(), list.as_slice());
    Ok(())
}
