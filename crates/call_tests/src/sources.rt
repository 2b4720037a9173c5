//! Runs of the sources and their layers.
use reading::{Ending, ReadRefusal, Standing};
use refusal::Numbered;
use sheet::{ScanFault, Scanner};
use source::{Entry, Faulted, LayerFault, Place, Quota, Skip, Source, StoredList, Token, TooLong};
use std::test::Fail;

fn given(kind: u8, line: u32, column: u32) -> Entry<Token> {
    Entry::Given(Token {
        kind,
        place: Place::Two(line, column),
    })
}

#[test]
fn a_fault_keeps_its_number_through_layers(rt: HostRuntime) -> Result<(), Fail> {
    let scanner = Scanner::open(b"a # note\n B")?;
    let mut source = Quota::new(Skip::new(Skip::new(scanner, 16), 15), 5);
    assert_eq!(rt; source.next()?, given(2, 1, 1));
    let fault = Faulted {
        fault: LayerFault::Under(LayerFault::Under(LayerFault::Under(ScanFault::NoClass))),
        place: Place::Two(2, 2),
    };
    assert_eq!(rt; fault.fault.number(), 19);
    assert_eq!(rt; source.next(), Err(fault));
    assert_eq!(rt; source.next(), Err(fault));
    Ok(())
}

#[test]
fn a_used_quota_keeps_its_place(rt: HostRuntime) -> Result<(), Fail> {
    let scanner = Scanner::open(b"a\nb c d")?;
    let mut source = Skip::new(Quota::new(scanner, 3), 15);
    assert_eq!(rt; source.next()?, given(2, 1, 1));
    assert_eq!(rt; source.next()?, given(2, 2, 1));
    let fault = Faulted {
        fault: LayerFault::Under(LayerFault::QuotaUsed),
        place: Place::Two(2, 3),
    };
    assert_eq!(rt; fault.fault.number(), 22);
    assert_eq!(rt; source.next(), Err(fault));
    assert_eq!(rt; source.next(), Err(fault));
    Ok(())
}

#[test]
fn a_quota_over_a_list_has_its_number(rt: HostRuntime) -> Result<(), Fail> {
    let mut source = Quota::new(StoredList::open(&[2, 1])?, 0);
    let fault = Faulted {
        fault: LayerFault::QuotaUsed,
        place: Place::One(1),
    };
    assert_eq!(rt; fault.fault.number(), 22);
    assert_eq!(rt; source.next(), Err(fault));
    Ok(())
}

#[test]
fn a_stored_list_has_at_most_60000_bytes(rt: HostRuntime) -> Result<(), Fail> {
    let bytes = [7u8; 60_001];
    let mut list = StoredList::open(&bytes[..60_000])?;
    let first = Entry::Given(Token {
        kind: 7,
        place: Place::One(1),
    });
    assert_eq!(rt; list.next()?, first);
    let refused = TooLong { length: 60_001 };
    assert_eq!(rt; refused.number(), 18);
    assert_eq!(rt; StoredList::open(&bytes).err(), Some(refused));
    let second = Entry::Given(Token {
        kind: 7,
        place: Place::One(2),
    });
    assert_eq!(rt; list.next()?, second);
    Ok(())
}

#[test]
fn a_sheet_has_at_most_60000_bytes(rt: HostRuntime) -> Result<(), Fail> {
    let bytes = [b' '; 60_001];
    let refused = TooLong { length: 60_001 };
    assert_eq!(rt; Scanner::open(&bytes).err(), Some(refused));
    assert_eq!(rt; Scanner::new().next()?, Entry::End(Place::Two(1, 1)));
    let mut scanner = Scanner::open(&bytes[..60_000])?;
    let end = Entry::End(Place::Two(1, 60_001));
    assert_eq!(rt; scanner.next()?, end);
    assert_eq!(rt; scanner.next()?, end);
    Ok(())
}

#[test]
fn readings_run(rt: HostRuntime) -> Result<(), Fail> {
    let report = cases::sentence_case();
    assert_eq!(rt; report.ran.moves, 8);
    assert_eq!(rt; report.ran.rules, 4);
    assert_eq!(rt; report.list[3], 2);
    assert_eq!(rt; report.view.standing, Standing::Over(Ending::Finished));
    let refused = cases::closed_wrongly_case();
    assert_eq!(rt;
        refused.ran.refusal,
        Some(ReadRefusal::Unfit(Place::One(2)))
    );
    assert_eq!(rt; refused.view.moves, 2);
    let sheet = cases::whole_sheet_case();
    assert_eq!(rt; sheet.view, report.view);
    assert_eq!(rt; sheet.refusal, None);
    Ok(())
}
