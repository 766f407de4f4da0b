// Refusals by number, layer and words, and the lines of a listing.
use refusal::{Refusal, StoreRefusal};
use runlist::{Command, Placed, ReadError, RefusedAt};
use std::test::Fail;
use wording::{line, verdict};

const ALL: [(Refusal, u8, char); 23] = [
    (Refusal::UnknownLetter, 1, 'L'),
    (Refusal::CutShort, 2, 'L'),
    (Refusal::OpenMisplaced, 3, 'L'),
    (Refusal::BadOpen, 4, 'L'),
    (Refusal::NoCluster, 5, 'B'),
    (Refusal::SameCluster, 6, 'B'),
    (Refusal::NoRank, 7, 'B'),
    (Refusal::ListTooLong, 8, 'L'),
    (Refusal::RestartOpen, 9, 'B'),
    (Refusal::NoRestart, 10, 'B'),
    (Refusal::NotInLog, 11, 'B'),
    (Refusal::Delivered, 12, 'B'),
    (Refusal::RoundOpen, 13, 'B'),
    (Refusal::NoRound, 14, 'B'),
    (Refusal::Answered, 15, 'B'),
    (Refusal::LogFull, 16, 'B'),
    (Refusal::KeptFull, 17, 'B'),
    (Refusal::NumbersSpent, 18, 'B'),
    (Refusal::Store(StoreRefusal::Held), 19, 'S'),
    (Refusal::NotKept, 20, 'B'),
    (Refusal::NoAlert, 21, 'B'),
    (Refusal::WrongTicket, 22, 'B'),
    (Refusal::NoRoom, 23, 'L'),
];

#[test]
fn refusals_by_number(rt: HostRuntime) {
    for (why, number, layer) in ALL {
        assert_eq!(rt; why.number(), number);
        assert_eq!(rt; why.layer().letter(), layer);
        assert_eq!(rt; why.side(), 0);
    }
    assert_eq!(rt; Refusal::Store(StoreRefusal::Full(2)).side(), 2);
}

#[test]
fn store_refusals_by_letter(rt: HostRuntime) {
    assert_eq!(rt; StoreRefusal::WordCount.letter(), 'w');
    assert_eq!(rt; StoreRefusal::Held.letter(), 'h');
    assert_eq!(rt; StoreRefusal::NotHeld.letter(), 'm');
    assert_eq!(rt; StoreRefusal::Full(1).letter(), 'f');
    assert_eq!(rt; StoreRefusal::NoSide.letter(), 's');
    assert_eq!(rt; StoreRefusal::SideOut.letter(), 'o');
}

#[test]
fn refusals_in_words(rt: HostRuntime) -> Result<(), Fail> {
    let heap = rt.alloc();
    let cut = Refusal::CutShort;
    let full = StoreRefusal::Full(0);
    assert_eq!(rt;
        format!(in heap; "{cut}, {full}")?.as_str(),
        "command cut short, full"
    );
    Ok(())
}

#[test]
fn lines(rt: HostRuntime) -> Result<(), Fail> {
    let heap = rt.alloc();
    let send = Command::Send(b"\x00\x01\x00\x00\x00\x00\x00\x00\xbe\xef");
    let text = line(
        heap,
        Placed {
            offset: 5,
            command: send,
        },
    )?;
    assert_eq!(rt; text.as_str(), "5 send from 0 to 1 word 0x000000000000beef");
    let open = Command::Open(b"\x08\x20e\x50");
    let text = line(
        heap,
        Placed {
            offset: 0,
            command: open,
        },
    )?;
    assert_eq!(rt;
        text.as_str(),
        "0 open clusters 8 nodes 32 rule 101 store P",
        "a byte that is no capital letter"
    );
    let short = Command::Fault(b"");
    let text = line(
        heap,
        Placed {
            offset: 7,
            command: short,
        },
    )?;
    assert_eq!(rt; text.as_str(), "7 operands of the wrong width");
    Ok(())
}

#[test]
fn verdicts(rt: HostRuntime) -> Result<(), Fail> {
    let heap = rt.alloc();
    assert_eq!(rt;
        verdict(heap, Ok(13), 68)?.as_str(),
        "accepted: 13 commands, 68 bytes"
    );
    let refused = RefusedAt {
        why: Refusal::CutShort,
        offset: 17,
    };
    assert_eq!(rt;
        verdict(heap, Err(refused), 20)?.as_str(),
        "refused by 2 (command cut short) at offset 17"
    );
    Ok(())
}

#[test]
fn read_errors(rt: HostRuntime) -> Result<(), Fail> {
    let heap = rt.alloc();
    let refused = ReadError::Refused(RefusedAt {
        why: Refusal::UnknownLetter,
        offset: 5,
    });
    assert_eq!(rt;
        format!(in heap; "{refused}")?.as_str(),
        "refused by 1 (unknown letter) at offset 5"
    );
    assert_eq!(rt;
        format!(in heap; "{}", ReadError::Memory)?.as_str(),
        "out of memory"
    );
    Ok(())
}
