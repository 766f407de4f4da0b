// What a reader gives, and where a list is refused.

use runlist::{Operands, Reader, RefusedAt, accept};
use std::alloc::{AllocError, Global};
use std::iter;
use std::test::Fail;

// Each letter with the number of its operand bytes.
const LETTERS: [(u8, usize); 11] = [
    (b'O', 4),
    (b'Q', 2),
    (b'A', 10),
    (b'S', 10),
    (b'M', 5),
    (b'F', 1),
    (b'L', 2),
    (b'R', 0),
    (b'T', 1),
    (b'G', 0),
    (b'W', 5),
];

// A refusal's number and its offset: what is tested are the numbers of the format, so they stand here as numbers.
fn by_number(refused: RefusedAt) -> (u8, usize) {
    (refused.why.number(), refused.offset)
}

// How many commands the list has, or its refusal by number.
fn verdict(list: &[u8]) -> Result<usize, (u8, usize)> {
    accept(list).map_err(by_number)
}

// Open, then a letter with so many operand bytes.
fn opened(heap: Global, letter: u8, operands: usize) -> Result<Vec<u8>, AllocError> {
    let mut list = Vec::from_slice(heap, b"O\x02\x01NS")?;
    list.push(letter)?;
    list.extend(iter::repeat_n(0, operands))?;
    Ok(list)
}

#[test]
fn short_lists(rt: HostRuntime) {
    assert_eq!(rt; verdict(b""), Ok(0), "the empty list is accepted");
    assert_eq!(rt; verdict(b"O\x02\x01NS"), Ok(1));
    assert_eq!(rt;
        verdict(b"O\x00\xff??"),
        Ok(1),
        "a reader does not judge sizes"
    );
    assert_eq!(rt;
        verdict(b"Q"),
        Err((2, 0)),
        "cut short before open is missed"
    );
    assert_eq!(rt;
        verdict(b"Q\x00\x00"),
        Err((3, 0)),
        "the first command is not open"
    );
    assert_eq!(rt; verdict(b"G"), Err((3, 0)));
    assert_eq!(rt; verdict(b"x"), Err((1, 0)));
    assert_eq!(rt;
        verdict(b"o\x02\x01NS"),
        Err((1, 0)),
        "letters are capitals"
    );
    assert_eq!(rt;
        verdict(b"O\x02\x01NSO\x02\x01NS"),
        Err((3, 5)),
        "open again"
    );
    assert_eq!(rt;
        verdict(b"O\x02\x01NSO\x02\x01N"),
        Err((2, 5)),
        "a second open, cut short"
    );
    assert_eq!(rt; verdict(b"O\x02\x01NSGG!"), Err((1, 7)));
    assert_eq!(rt; verdict(b"O\x02\x01NSGRF"), Err((2, 7)));
}

#[test]
fn every_letter_cut_at_every_length(rt: HostRuntime) -> Result<(), Fail> {
    for (letter, width) in LETTERS {
        for operands in 0..width {
            let list = opened(rt.alloc(), letter, operands)?;
            assert_eq!(rt; verdict(list.as_slice()), Err((2, 5)), "cut short");
        }
        let list = opened(rt.alloc(), letter, width)?;
        let expected = if letter == b'O' { Err((3, 5)) } else { Ok(2) };
        assert_eq!(rt; verdict(list.as_slice()), expected, "whole");
    }
    Ok(())
}

#[test]
fn open_cut_at_every_length(rt: HostRuntime) {
    assert_eq!(rt; verdict(b"O"), Err((2, 0)));
    assert_eq!(rt; verdict(b"O\x02"), Err((2, 0)));
    assert_eq!(rt; verdict(b"O\x02\x01"), Err((2, 0)));
    assert_eq!(rt; verdict(b"O\x02\x01N"), Err((2, 0)));
}

// Every byte that is no letter of a command is refused by 1, first and later.
#[test]
fn unknown_letters(rt: HostRuntime) -> Result<(), Fail> {
    for letter in 0..=255u8 {
        if !LETTERS.iter().any(|(known, _)| *known == letter) {
            let list = opened(rt.alloc(), letter, 0)?;
            assert_eq!(rt; verdict(list.as_slice()), Err((1, 5)));
            assert_eq!(rt; verdict(&[letter]), Err((1, 0)));
        }
    }
    Ok(())
}

#[test]
fn longest_list(rt: HostRuntime) -> Result<(), Fail> {
    let mut list = Vec::from_slice(rt.alloc(), b"O\x02\x01NS")?;
    list.resize(65_536, b'G')?;
    assert_eq!(rt; list.len(), 65_536);
    assert_eq!(rt; verdict(list.as_slice()), Ok(65_532));
    list.push(b'G')?;
    assert_eq!(rt; verdict(list.as_slice()), Err((8, 0)), "65,537 bytes");
    list.clear();
    list.resize(65_537, b'x')?;
    assert_eq!(rt;
        verdict(list.as_slice()),
        Err((8, 0)),
        "too long comes before an unknown letter"
    );
    Ok(())
}

#[test]
fn operands_and_offsets(rt: HostRuntime) -> Result<(), Fail> {
    let list =
        b"O\x08\x20ES\x53\x00\x01\x01\x23\x45\x67\x89\xab\xcd\xefM\x00\x0f\x42\x40\x1fW\x07\x00\x01\x00\x02R";
    let mut offsets = Vec::new(rt.alloc());
    let mut operands = Vec::new(rt.alloc());
    for read in Reader::new(list) {
        let placed = read?;
        offsets.push(placed.offset)?;
        operands.push(placed.command.operands().ok_or("width")?)?;
    }
    assert_eq!(rt; offsets.as_slice(), [0, 5, 16, 22, 28].as_slice());
    let expected = [
        Operands::Open {
            clusters: 8,
            nodes: 32,
            rule: b'E',
            store: b'S',
        },
        Operands::Send {
            from: 0,
            to: 1,
            word: 0x0123_4567_89ab_cdef,
        },
        Operands::Arrive {
            id: 1_000_000,
            rank: 31,
        },
        Operands::Read {
            cluster: 7,
            number: 65_538,
        },
        Operands::Resume,
    ];
    assert_eq!(rt; operands.as_slice(), expected.as_slice());
    Ok(())
}

// After a refusal a reader gives nothing more.
#[test]
fn nothing_after_a_refusal(rt: HostRuntime) {
    let mut reader = Reader::new(b"O\x02\x01NSxGG");
    assert!(rt; reader.next().is_some());
    let refused = reader.next().map(|read| read.map_err(by_number));
    assert_eq!(rt; refused, Some(Err((1, 5))));
    assert!(rt; reader.next().is_none());
    assert!(rt; reader.next().is_none());
}
