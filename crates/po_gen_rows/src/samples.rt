//! The texts of sample units, and that each is read as the unit.

use po_ir::{print_unit, read_units};
use po_sample::sample_unit;
use po_text::Spot;
use std::alloc::Global;
use std::test::Fail;

/// A seed, the number of a unit, and its text.
const UNITS: [(u32, u32, &str); 2] = [
    (
        7,
        0,
        "unit u0\nadl 8\nadl 2\nlod\nadl 2\nlod\nadd\nsto\nadl 4\nadl 4\nlod\ncon 264\nadd\nsto\nadl 4\n\
         con 86\nsto\nadl 4\nlod\ncon 80\nbeq L3\nadl 1\ncon 1\nsto\nlab L3\nadl 3\nadl 3\nlod\ncon 205\n\
         add\nsto\nadl 5\nlod\ncon 136\nbeq L5\nadl 8\ncon 1\nsto\nlab L5\nadl 7\nadl 7\nlod\ncon 98\n\
         add\nsto\nadl 1\nadl 1\nlod\ncon 40\nadd\nsto\nadl 1\nlod\nret\nend\n",
    ),
    (
        4294967295,
        9999,
        "unit u9999\nadl 4\nadl 4\nlod\ncon 244\nadd\nsto\nadl 2\nadl 3\nlod\nadl 3\nlod\nadd\nsto\n\
         adl 5\nlod\ncon 38\nbeq L2\nadl 7\ncon 1\nsto\nlab L2\nadl 6\ncon 105\nsto\nadl 7\nadl 5\nlod\n\
         adl 6\nlod\nadd\nsto\nadl 1\nlod\ncon 108\nbeq L5\nadl 3\ncon 1\nsto\nlab L5\nadl 7\nadl 7\n\
         lod\nadl 4\nlod\nadd\nsto\nadl 1\ncon 246\nsto\nadl 1\nlod\nret\nend\n",
    ),
];

/// The text of the one unit of a text.
fn printed_again(alloc: Global, text: &[u8]) -> Result<Vec<u8>, Fail> {
    if text.len() > 4096 {
        return Err(Fail::from("too long"));
    }
    let units = read_units(alloc, text, Spot { offset: 0, line: 1 })?;
    match units.as_slice() {
        [unit] => Ok(print_unit(alloc, unit)?),
        _ => Err(Fail::from("not one unit")),
    }
}

#[test]
fn sample_units_are_those_of_the_rule(rt: HostRuntime) -> Result<(), Fail> {
    let alloc = rt.alloc();
    for (seed, k, text) in UNITS {
        let unit = sample_unit(alloc, seed, k)?;
        let printed = print_unit(alloc, &unit)?;
        assert_eq!(rt;
            printed.as_slice(),
            text.as_bytes(),
            "unit {} of seed {}",
            k,
            seed
        );
        let again = printed_again(alloc, &printed)?;
        assert_eq!(rt;
            again.as_slice(),
            text.as_bytes(),
            "unit {} of seed {}, read again",
            k,
            seed
        );
    }
    Ok(())
}
