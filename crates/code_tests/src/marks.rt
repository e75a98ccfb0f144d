use ib_act::Act;
use ib_base::{FaultKind, Place};
use wide_core::{Done, Tagged, WideAct, WideOp, evaluate};

const FIRST: Tagged = Tagged::Mark {
    number: 3,
    kind: FaultKind::Bounds,
};

const SAME_NUMBER: Tagged = Tagged::Mark {
    number: 3,
    kind: FaultKind::DivZero,
};

const LATER: Tagged = Tagged::Mark {
    number: 7,
    kind: FaultKind::DivZero,
};

fn operation(flagged: bool) -> WideOp {
    WideOp {
        number: 9,
        home: Place { line: 1, col: 1 },
        flagged,
        act: WideAct::Do(Act::PutNumber { from: 0 }),
    }
}

/// The first row whose mark is not the one that counts.
fn first_wrong() -> Option<usize> {
    let fault = Err(FaultKind::DivOverflow);
    let rows = [
        ([LATER, FIRST], Ok(1), (3, FaultKind::Bounds)),
        ([FIRST, LATER], fault, (3, FaultKind::Bounds)),
        ([FIRST, SAME_NUMBER], Ok(1), (3, FaultKind::DivZero)),
        ([SAME_NUMBER, FIRST], Ok(1), (3, FaultKind::DivZero)),
        ([Tagged::Clear(4), LATER], fault, (7, FaultKind::DivZero)),
        (
            [Tagged::Clear(4), Tagged::Clear(5)],
            fault,
            (9, FaultKind::DivOverflow),
        ),
    ];
    rows.iter().position(|(sources, own, (number, kind))| {
        let (number, kind) = (*number, *kind);
        evaluate(&operation(true), sources, *own) != Done::Marked { number, kind }
            || evaluate(&operation(false), sources, *own) != Done::Report { number, kind }
    })
}

#[test]
fn the_least_mark_counts(rt: HostRuntime) {
    assert_eq!(rt; first_wrong(), None);
}

#[test]
fn clear_sources_let_the_value_through(rt: HostRuntime) {
    let value = evaluate(&operation(false), &[Tagged::Clear(4)], Ok(-6));
    assert_eq!(rt; value, Done::Value(-6));
}
