//! The sample machine.

/// The description of the sample machine `tiny`: 30 lines, 24 entries.
pub const TINY: &str = "\
machine tiny\n\
frame fp\n\
result rv\n\
args a0 a1 a2 a3\n\
regs r0 r1 r2 r3\n\
insn %0 := #1 => li %0,#1\n\
insn %0 := (fp + #1) => lea %0,#1\n\
insn %0 := &1 => la %0,&1\n\
insn %0 := M[%1] => ld %0,(%1)\n\
insn %0 := M[(%1 + #2[-128,127])] => ld %0,#2(%1)\n\
insn M[%0] := %1 => st %1,(%0)\n\
insn M[(%0 + #1[-128,127])] := %2 => st %2,#1(%0)\n\
insn %0 := (%1 + %2) => add %0,%1,%2\n\
insn %0 := (%1 + #2[-128,127]) => addi %0,%1,#2\n\
insn %0 := %1 => mov %0,%1\n\
insn cc := %0 ? %1 => cmp %0,%1\n\
insn cc := %0 ? #1[-128,127] => cmpi %0,#1\n\
insn if cc eq goto @0 => beq @0\n\
insn if cc ne goto @0 => bne @0\n\
insn if cc lt goto @0 => blt @0\n\
insn if cc le goto @0 => ble @0\n\
insn if cc gt goto @0 => bgt @0\n\
insn if cc ge goto @0 => bge @0\n\
insn if cc ltu goto @0 => bltu @0\n\
insn if cc geu goto @0 => bgeu @0\n\
insn if %0 ? #1[-128,127] eq goto @2 clobber cc => cbeq %0,#1,@2\n\
insn goto @0 => jmp @0\n\
insn call &0 => call &0\n\
insn ret => ret\n\
end\n\
";
