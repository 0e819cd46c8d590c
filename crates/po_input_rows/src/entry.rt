use po_entry::{print_entry, read_entry};
use po_lines::{LineError, LineFault};
use po_model::Entry;
use po_text::Kind;
use std::alloc::Global;
use std::test::Fail;

/// The first fault of a line.
fn fault(alloc: Global, line: &[u8]) -> Option<LineFault> {
    if line.len() > 4096 {
        return None;
    }
    match read_entry(alloc, line) {
        Ok(_) | Err(LineError::Memory) => None,
        Err(LineError::Fault(fault)) => Some(fault),
    }
}

#[test]
fn faults(rt: HostRuntime) {
    let lines = [
        // words
        ("insn", 5, Kind::Word),
        ("insn %0 ", 9, Kind::Word),
        ("insn ret", 9, Kind::Word),
        ("insn := (%1 + %2) => add %0,%1,%2", 6, Kind::Word),
        ("insn %0 if:= (%1 - %2) => sub %0,%1,%2", 9, Kind::Word),
        ("insn cc:= %0 ? %1 => x", 6, Kind::Word),
        ("insn %0:= %1 => x", 8, Kind::Word),
        ("insn cc := %0@? %1 => cmp %0,%1", 14, Kind::Word),
        (
            "insn cc := %0 ? #1[-128,&127] => cmpi %0,#1",
            25,
            Kind::Word,
        ),
        ("insn %0 := ; %2 := %3 => mov2 %0,%1,%2,%3", 12, Kind::Word),
        ("insn %0 := (%1 << %2)=> => sll %0,%1,%2", 22, Kind::Word),
        ("insn if %0 ? %1 l goto @2 => blt %0,%1,@2", 17, Kind::Word),
        ("insn if cc geu got%o @0 => bgeu @0", 16, Kind::Word),
        ("insn if cc geu goto @0lod=> bgeu @0", 23, Kind::Word),
        ("insn if cc lt goto => blt @0", 20, Kind::Word),
        ("insn if cc eq goto %0 => x", 20, Kind::Word),
        ("insn call &0 1 => x", 14, Kind::Word),
        ("insn call &00 => call &0", 13, Kind::Word),
        ("insn ret+ => ret", 6, Kind::Word),
        ("insn goto => x", 11, Kind::Word),
        ("insn if cc := goto @0 => x", 12, Kind::Word),
        ("insn call @0 => x", 11, Kind::Word),
        ("insn ret clobber x => y", 18, Kind::Word),
        ("insn if cc eq goto @0 clobber => x", 31, Kind::Word),
        ("insn M[%0] := %1 clobber cc cc => x", 29, Kind::Word),
        ("insn ret clobber cc clobber cc => y", 21, Kind::Word),
        ("insn M[%0] := %1 =>unitst %1,(%0)", 18, Kind::Word),
        ("insn M[%0] := #1[0,127] = sti (%0),#1", 25, Kind::Word),
        // A name is read whole: none of these is a register.
        ("insn %0 := fpx => x", 12, Kind::Word),
        ("insn arg4 := %0 => x", 6, Kind::Word),
        // numbers and operands
        ("insn %0 := 00000000001 => x", 12, Kind::Word),
        ("insn %0 := 9999999999 => x", 12, Kind::Number),
        ("insn cc := %0 ? -2147483649 => x", 17, Kind::Number),
        ("insn cc := %0 ? #1[2147483648,0] => x", 20, Kind::Number),
        ("insn if %0 ? 2147483648 eq goto @1 => x", 14, Kind::Number),
        ("insn M[2147483648] := %0 => x", 8, Kind::Number),
        ("insn cc := %0 ? #1[1,0] => x", 19, Kind::Range),
        ("insn M[(%0 + #1[1,0])] := %2 => x", 16, Kind::Range),
        ("insn if %0 ? #1[1,0] eq goto @2 => x", 16, Kind::Range),
        ("insn M[%0] := %1 ; goto @1 => x", 25, Kind::ListForm),
        ("insn if %0 ? %1 eq goto @1 => x", 25, Kind::ListForm),
        ("insn %0 := %1 ; call &0 => x", 22, Kind::ListForm),
        ("insn M[%0] := 2147483648%1 => st %1,(%0)", 15, Kind::Number),
        ("insn %0 := #1[5,4] => x", 14, Kind::Range),
        ("insn %0 := #0 => x", 12, Kind::ListForm),
        ("insn cc := %0 ? #0 => x", 17, Kind::ListForm),
        (
            "insn cc := %0 ? %1 ; if cc eq goto @1 => x",
            36,
            Kind::ListForm,
        ),
        ("insn %0 := (#1 + #1[0,1]) => x", 18, Kind::ListForm),
        // the list
        ("insn fp := %0 => x", 6, Kind::ListForm),
        ("insn %0 := %1 ; %0 := %2 => x", 17, Kind::ListForm),
        ("insn cc := %0 ? %1 ; %2 := %3 => x", 22, Kind::ListForm),
        (
            "insn cc := %0 ? %1 ; cc := %2 ? %3 => x",
            22,
            Kind::ListForm,
        ),
        ("insn M[%0] := %1 ; M[%2] := %3 => x", 20, Kind::ListForm),
        ("insn goto @0 ; goto @1 => x", 16, Kind::ListForm),
        ("insn call &0 ; %1 := %2 => x", 16, Kind::ListForm),
        ("insn ret ; ret => x", 12, Kind::ListForm),
        (
            "insn %0 := %1 ; %2 := %3 ; %4 := %5 ; %6 := %7 ; ret => x",
            50,
            Kind::ListForm,
        ),
        (
            "insn %0 := %1 ; %2 := %3 ; %4 := %5 ; %6 := %7 ; goto %0 => x",
            55,
            Kind::Word,
        ),
        (
            "insn fp := neg(neg(neg(neg(neg(neg(neg(neg(neg(neg(neg(neg(neg(neg(neg(neg(%1)))))))))))))))) => x",
            6,
            Kind::TooMany,
        ),
        (
            "insn M[neg(neg(neg(neg(neg(neg(neg(neg(neg(neg(neg(neg(neg(neg(neg(neg(%1))))))))))))))))] := %0 => x",
            6,
            Kind::TooMany,
        ),
        (
            "insn cc := neg(neg(neg(neg(neg(neg(neg(neg(neg(neg(neg(neg(neg(neg(neg(neg(%1)))))))))))))))) ? %0 => x",
            6,
            Kind::TooMany,
        ),
        (
            "insn if neg(neg(neg(neg(neg(neg(neg(neg(neg(neg(neg(neg(neg(neg(neg(neg(%1)))))))))))))))) ? %0 \
                eq goto @2 => x",
            6,
            Kind::TooMany,
        ),
        ("insn cc := %0 ? %1 clobber cc => x", 20, Kind::NeverMatches),
        // Decided at the word `clobber`, before what stands behind it is looked at.
        ("insn cc := %0 ? %1 clobber x => y", 20, Kind::NeverMatches),
        // the template
        ("insn ret =>", 12, Kind::Word),
        ("insn ret =>\tret", 12, Kind::Word),
        ("insn ret => a\tb", 14, Kind::Word),
        ("insn ret => a%", 14, Kind::ListForm),
        ("insn %0 := #1 => li %0,%1", 24, Kind::ListForm),
        ("insn %0 := %1 => mov %rv0,%1", 22, Kind::ListForm),
        (
            "insn %0 := (%1 + #2) ; cc := %0 ? #3 => addcmp %0,%,1,#2,#3",
            51,
            Kind::ListForm,
        ),
    ];
    for (line, column, kind) in lines {
        let wanted = Some(LineFault { column, kind });
        assert_eq!(rt; fault(rt.alloc(), line.as_bytes()), wanted, "{line}");
    }
}

/// The line of an entry, printed.
fn printed(alloc: Global, entry: &Entry) -> Result<Vec<u8>, Fail> {
    let mut out = Vec::new(alloc);
    print_entry(alloc, entry, &mut out)?;
    Ok(out)
}

/// The line printed as it was read.
fn again(alloc: Global, line: &[u8]) -> Result<Option<Vec<u8>>, Fail> {
    if line.len() > 4096 {
        return Ok(None);
    }
    match read_entry(alloc, line) {
        Ok(entry) => Ok(Some(printed(alloc, &entry)?)),
        Err(_) => Ok(None),
    }
}

#[test]
fn good_lines(rt: HostRuntime) -> Result<(), Fail> {
    let lines = [
        ("insn %0 := #1 => li %0,#1", "insn %0 := #1 => li %0,#1"),
        ("  insn  ret\t=>  ", "insn ret =>  "),
        ("insn M [ %0 ] := %1 => x", "insn M[%0] := %1 => x"),
        (
            "insn %0 := #1[-2147483648,2147483647] => x",
            "insn %0 := #1[-2147483648,2147483647] => x",
        ),
        ("insn %0 := #1[5,5] => x", "insn %0 := #1[5,5] => x"),
        (
            "insn %0 := %1 ; %2 := %3 ; cc := %0 ? %2 ; M[%4] := %5 => x",
            "insn %0 := %1 ; %2 := %3 ; cc := %0 ? %2 ; M[%4] := %5 => x",
        ),
        (
            "insn %0 := M [ ( %1+#2[ -128 , 127 ] ) ] => ld %0,#2(%1)",
            "insn %0 := M[(%1 + #2[-128,127])] => ld %0,#2(%1)",
        ),
        (
            "insn %0 := not((%1>>>-1)) ; M[neg(%0)] := 4 ; call &2 clobber cc => %%0 ## && @@ %0 &2",
            "insn %0 := not((%1 >>> -1)) ; M[neg(%0)] := 4 ; call &2 clobber cc => %%0 ## && @@ %0 &2",
        ),
        (
            "insn if %0 ? #1[-128,127] eq goto @2 clobber cc => cbeq %0,#1,@2",
            "insn if %0 ? #1[-128,127] eq goto @2 clobber cc => cbeq %0,#1,@2",
        ),
        (
            "insn rv := ((%0-&1)&2147483647) ; cc := fp ? arg3 ; if cc geu goto @9 => ",
            "insn rv := ((%0 - &1) & 2147483647) ; cc := fp ? arg3 ; if cc geu goto @9 => ",
        ),
        (
            "insn %0 := neg(neg(neg(neg(neg(neg(neg(neg(neg(neg(neg(neg(neg(neg(neg(%1))))))))))))))) => x",
            "insn %0 := neg(neg(neg(neg(neg(neg(neg(neg(neg(neg(neg(neg(neg(neg(neg(%1))))))))))))))) => x",
        ),
    ];
    for (line, wanted) in lines {
        let text = again(rt.alloc(), line.as_bytes())?;
        assert!(rt; text.as_deref() == Some(wanted.as_bytes()), "{line}");
    }
    Ok(())
}
