//! `ua_diagnostic`.

use crate::cases::{check, value, writes};
use std::test::Fail;
use ua_diagnostic::{BoxedDiagnostic, DiagnosticInfo, Dimensions, dims_fit};

#[test]
fn reads_diagnostics(rt: HostRuntime) -> Result<(), Fail> {
    let cases = [
        (
            "7F 01000000 02000000 03000000 04000000 01000000 41 00003480 00",
            "same",
        ),
        ("99*40 00", "same"),
        ("100*40 00", "none"),
        ("10 FFFFFFFF", "00"),
        ("80", "none"),
        ("01 000000", "none"),
    ];
    for (words, expected) in cases {
        check::<DiagnosticInfo>(&rt, words, expected)?;
    }
    Ok(())
}

#[test]
fn measures_diagnostics(rt: HostRuntime) -> Result<(), Fail> {
    let alloc = rt.alloc();
    let cases = [
        ("00", 1, 1),
        ("99*40 00", 100, 100),
        (
            "7F 01000000 02000000 03000000 04000000 01000000 41 00003480 00",
            2,
            8,
        ),
    ];
    for (words, depth, count) in cases {
        let info = value::<DiagnosticInfo>(alloc, words)?;
        assert!(rt;
            info.depth() == depth && info.count() == count && info.writable(),
            "{words}"
        );
        writes(&rt, &info.try_clone(alloc)?, words)?;
        let boxed = BoxedDiagnostic::new(alloc, info)?;
        writes(&rt, &boxed.into_inner(), words)?;
    }
    Ok(())
}

#[test]
fn keeps_dimensions(rt: HostRuntime) -> Result<(), Fail> {
    let alloc = rt.alloc();
    let dims = Dimensions::new([1, 2].to_vec(alloc)?);
    assert!(rt; dims_fit(&dims, 2) && !dims_fit(&dims, 3));
    assert_eq!(rt;
        dims.try_clone(alloc)?.into_vec().as_slice(),
        [1, 2].as_slice()
    );
    assert!(rt; Dimensions::none(alloc).as_slice().is_empty());
    Ok(())
}
