//! Loads and checks in memories of a caller's own: what no text that was loaded first comes to.
use cases::{ACCEPTED, ACCEPTED_STARTS, look_up_case};
use frames::Header;
use load::{LoadRefusal, Loaded, load};
use refusal::Numbered;
use std::test::Fail;
use table::{CheckRefusal, check};

// The text of the accepted table.
static TEXT: &[u8; 184] = b"010102020305\n02200221\n02210121\n0221\n\
    030301\n041F00\n0520012102\n062002000021010001211F0002\n\
    030300\n040200\n05\n06\n0300010101\n0401001F00\n0501030204\n06\n\
    030100\n040100\n05\n06\n030000\n040200\n05\n06\n";

#[test]
fn a_text_has_at_most_1048576_bytes(rt: HostRuntime) -> Result<(), Fail> {
    let mut text = vec![in rt.alloc(); b'0'; 1_048_576]?;
    let unclosed = Err(LoadRefusal::NotAFrame(1));
    assert_eq!(rt; load(&text, &mut [], &mut []), unclosed);
    // 127 lines of 8,192 digits and one of 8,064
    for line in text.chunks_mut(8_193) {
        if let Some(end) = line.last_mut() {
            *end = b'\n';
        }
    }
    let mut store = vec![in rt.alloc(); 9u8; 524_224]?;
    let mut starts = [7; 128];
    let whole = Loaded {
        frames: 128,
        bytes: 524_224,
    };
    assert_eq!(rt; load(&text, &mut store, &mut starts), Ok(whole));
    text.push(b'\n')?;
    assert_eq!(rt; LoadRefusal::TextTooLong.number(), 1);
    assert_eq!(rt;
        load(&text, &mut store, &mut starts),
        Err(LoadRefusal::TextTooLong)
    );
    Ok(())
}

#[test]
fn memory_that_is_too_short_stays_as_it_was(rt: HostRuntime) -> Result<(), Fail> {
    let mut store = [9u8; 80];
    let mut starts = [7usize; 24];
    let no_room = Err(LoadRefusal::NoRoom);
    assert_eq!(rt; LoadRefusal::NoRoom.number(), 3);
    assert_eq!(rt; load(TEXT, &mut store[..79], &mut starts), no_room);
    assert_eq!(rt; load(TEXT, &mut store, &mut starts[..23]), no_room);
    assert_eq!(rt; store, [9; 80]);
    assert_eq!(rt; starts, [7; 24]);
    let whole = Loaded {
        frames: 24,
        bytes: 80,
    };
    assert_eq!(rt; load(TEXT, &mut store, &mut starts), Ok(whole));
    assert_eq!(rt; store, *ACCEPTED);
    assert_eq!(rt; starts, ACCEPTED_STARTS);
    assert_eq!(rt; check(&store, &starts, whole.frames, whole.bytes), Ok(()));
    Ok(())
}

#[test]
fn numbers_come_before_starts_and_starts_before_frames(rt: HostRuntime) -> Result<(), Fail> {
    let mut untagged = *ACCEPTED;
    untagged[0] = 0;
    let first = Err(CheckRefusal::Frame(0));
    assert_eq!(rt; CheckRefusal::Frame(0).number(), 4);
    assert_eq!(rt; check(ACCEPTED, &ACCEPTED_STARTS, 25, 80), first);
    assert_eq!(rt; check(ACCEPTED, &ACCEPTED_STARTS, 24, 81), first);
    assert_eq!(rt; check(&untagged, &ACCEPTED_STARTS, 24, 80), first);
    // the first start is 1, the third is not above the second, which is 6, and the last is not below 80
    for (frame, start) in [(0, 1), (2, 6), (2, 5), (23, 80), (23, 81)] {
        let mut starts = ACCEPTED_STARTS;
        if let Some(place) = starts.get_mut(frame) {
            *place = start;
        }
        let found = Err(CheckRefusal::Frame(frame));
        assert_eq!(rt;
            check(ACCEPTED, &starts, 24, 80),
            found,
            "{start} at {frame}"
        );
        assert_eq!(rt;
            check(&untagged, &starts, 24, 80),
            found,
            "{start} at {frame}"
        );
        assert_eq!(rt;
            check(ACCEPTED, &starts, 25, 80),
            first,
            "{start} at {frame}"
        );
        assert_eq!(rt;
            check(ACCEPTED, &starts, 24, 81),
            first,
            "{start} at {frame}"
        );
    }
    Ok(())
}

// The first frames of a table with one token of lookahead, 20 kinds of tokens, 24 nonterminals, three rules and 200
// states, up to the words of state 0.
static FRONT: &[u8; 18] =
    b"\x01\x01\x14\x18\x03\xc8\x02\x20\x02\x20\x02\x20\x03\x03\x01\x04\x1f\x00";

#[test]
fn a_frame_has_at_most_4096_bytes(rt: HostRuntime) -> Result<(), Fail> {
    let starts = [0, 6, 8, 10, 12, 15, 18, 19];
    let mut successors = Vec::new(rt.alloc());
    successors.extend_from_slice(FRONT)?;
    successors.push(5)?;
    for symbol in 1..=11 {
        for state in 0..200 {
            successors.push(symbol)?;
            successors.push(state)?;
        }
    }
    // frame 6 has 4,095 bytes and frame 7 is missing, or frame 6 has 4,097
    let bytes = FRONT.len();
    assert_eq!(rt;
        check(&successors, &starts, 7, bytes + 4_095),
        Err(CheckRefusal::Frame(7))
    );
    assert_eq!(rt;
        check(&successors, &starts, 7, bytes + 4_097),
        Err(CheckRefusal::Frame(6))
    );
    let mut choices = Vec::new(rt.alloc());
    choices.extend_from_slice(FRONT)?;
    choices.extend_from_slice(&[5, 6])?;
    for nonterminal in 32..56 {
        for token in 1..=20 {
            for rule in 0..3 {
                choices.extend_from_slice(&[nonterminal, token, 0, rule])?;
            }
        }
    }
    // the same of frame 7, with 4,093 bytes or 4,097
    let bytes = bytes + 1;
    assert_eq!(rt;
        check(&choices, &starts, 8, bytes + 4_093),
        Err(CheckRefusal::Frame(8))
    );
    assert_eq!(rt;
        check(&choices, &starts, 8, bytes + 4_097),
        Err(CheckRefusal::Frame(7))
    );
    Ok(())
}

#[test]
fn a_checked_table_answers(rt: HostRuntime) -> Result<(), Fail> {
    let found = look_up_case()?;
    let Header { k, t, n, p, s } = found.header;
    assert_eq!(rt; [k, t, n, p, s], [1, 2, 2, 3, 5]);
    assert_eq!(rt; found.successors, [Some(2), None]);
    assert_eq!(rt; found.choices, [Some(2), None]);
    Ok(())
}
