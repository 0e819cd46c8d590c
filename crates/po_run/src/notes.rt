//! The line on the notes for a status. Making it takes no memory.
ghost use Rattle.std.specs.Prelude.{◌≡◌, ◌++◌, ◌<◌, ◌-◌, ◌^◌, OnOk, decimal};
ghost use Rattle.po_text.specs.Causes.{after_known};
ghost use Rattle.po_text.specs.Sink.{WriteCause};
ghost use Rattle.po_run.specs.Notes.{kind_name, note_line};
ghost use Rattle.po_run.specs.Stats.{stats_line, stats_text};

use itoa::Buffer;
use po_compile::Status;
use po_opt::Counts;
use po_text::{Kind, Sink, WriteFault, write_all};

/// The name of a kind of fault.
// ORDER: fault kinds
fn name_of(kind: Kind) -> &'static [u8]
    ensures { result.now ≡ kind_name kind }
{
    match kind {
        Kind::Word => b"Word",
        Kind::Number => b"Number",
        Kind::Range => b"Range",
        Kind::ListForm => b"ListForm",
        Kind::NeverMatches => b"NeverMatches",
        Kind::Duplicate => b"Duplicate",
        Kind::StackUnderflow => b"StackUnderflow",
        Kind::StackAtBoundary => b"StackAtBoundary",
        Kind::ArgMissing => b"ArgMissing",
        Kind::NoLabel => b"NoLabel",
        Kind::FallsOff => b"FallsOff",
        Kind::TooMany => b"TooMany",
    }
}

/// Writes a text and a number behind it.
fn push_number<N: Sink>(notes: &mut N, front: &[u8], n: u64) -> Result<(), WriteFault>
    ensures all { OnOk result (N.kept notes.new ≡ after_known (N.kept notes.old) (front.now ++ decimal n)) }
    ensures cause { WriteCause (N.faults notes.old) (N.faults notes.new) result }
{
    let mut buffer = Buffer::new();
    write_all(notes, front)?;
    write_all(notes, buffer.format(n).as_bytes())?;
    Ok(())
}

#[tactic(auto, using(po_text::proofs::Known::after_two))]
/// Writes two numbers, each behind its text.
fn push_two<N: Sink>(
    notes: &mut N,
    front: &[u8],
    first: u32,
    between: &[u8],
    second: u32,
) -> Result<(), WriteFault>
    ensures all { OnOk result (N.kept notes.new
        ≡ after_known (N.kept notes.old) (front.now ++ decimal first ++ between.now ++ decimal second)) }
    ensures cause { WriteCause (N.faults notes.old) (N.faults notes.new) result }
{
    push_number(notes, front, u64::from(first))?;
    push_number(notes, between, u64::from(second))?;
    Ok(())
}

#[tactic(auto, using(po_text::proofs::Known::after_two))]
/// Writes the line of a fault in the text.
fn push_fault<N: Sink>(notes: &mut N, line: u32, col: u32, kind: Kind) -> Result<(), WriteFault>
    ensures all { OnOk result (N.kept notes.new
        ≡ after_known (N.kept notes.old) (note_line (Status.BadText line col kind))) }
    ensures cause { WriteCause (N.faults notes.old) (N.faults notes.new) result }
{
    push_two(notes, b"po: line ", line, b", column ", col)?;
    write_all(notes, b": ")?;
    write_all(notes, name_of(kind))?;
    write_all(notes, b"\n")?;
    Ok(())
}

#[tactic(auto, using(po_text::proofs::Known::after_two))]
/// Writes the line of an instruction that no entry fits.
fn push_unrecognised<N: Sink>(
    notes: &mut N,
    unit: u32,
    block: u32,
    index: u32,
) -> Result<(), WriteFault>
    ensures all { OnOk result (N.kept notes.new
        ≡ after_known (N.kept notes.old) (note_line (Status.Unrecognised unit block index))) }
    ensures cause { WriteCause (N.faults notes.old) (N.faults notes.new) result }
{
    push_two(notes, b"po: unit ", unit, b", block ", block)?;
    push_number(notes, b", instruction ", u64::from(index))?;
    write_all(notes, b": not recognised\n")?;
    Ok(())
}

#[tactic(auto, using(po_text::proofs::Known::after_two))]
/// Writes the line of a crowded point.
fn push_crowded<N: Sink>(
    notes: &mut N,
    unit: u32,
    point: u32,
    needed: u32,
) -> Result<(), WriteFault>
    ensures all { OnOk result (N.kept notes.new
        ≡ after_known (N.kept notes.old) (note_line (Status.TooFew unit point needed))) }
    ensures cause { WriteCause (N.faults notes.old) (N.faults notes.new) result }
{
    push_two(notes, b"po: unit ", unit, b", point ", point)?;
    push_number(notes, b": ", u64::from(needed))?;
    write_all(notes, b" registers needed\n")?;
    Ok(())
}

#[tactic(auto, using(po_text::proofs::Known::after_two))]
/// Writes the line of a sink that failed.
fn push_written<N: Sink>(notes: &mut N, written: u64) -> Result<(), WriteFault>
    ensures all { OnOk result (N.kept notes.new
        ≡ after_known (N.kept notes.old) (note_line (Status.WriteFault written))) }
    ensures cause { WriteCause (N.faults notes.old) (N.faults notes.new) result }
{
    push_number(notes, b"po: write failed after ", written)?;
    write_all(notes, b" bytes\n")?;
    Ok(())
}

/// Writes the line of a status.
// ORDER: statuses
fn push_note<N: Sink>(notes: &mut N, status: Status) -> Result<(), WriteFault>
    ensures all { OnOk result (N.kept notes.new ≡ after_known (N.kept notes.old) (note_line status)) }
    ensures cause { WriteCause (N.faults notes.old) (N.faults notes.new) result }
{
    match status {
        Status::Done => write_all(notes, b""),
        Status::Usage => write_all(
            notes,
            b"po: usage: po naive, po slow, po opt [--workers N] [--learners N] [--stats], \
                po gen --seed N --units N\n",
        ),
        Status::ReadFault => write_all(notes, b"po: read failed\n"),
        Status::BadText { line, col, kind } => push_fault(notes, line, col, kind),
        Status::Unrecognised { unit, block, index } => push_unrecognised(notes, unit, block, index),
        Status::TooFew {
            unit,
            point,
            needed,
        } => push_crowded(notes, unit, point, needed),
        Status::WriteFault { written } => push_written(notes, written),
        Status::OutOfMemory => write_all(notes, b"po: out of memory\n"),
    }
}

/// Writes the line of a run's counts.
fn push_stats<N: Sink>(notes: &mut N, counts: Counts) -> Result<(), WriteFault>
    ensures all { OnOk result (N.kept notes.new ≡ after_known (N.kept notes.old) (stats_line counts)) }
    ensures cause { WriteCause (N.faults notes.old) (N.faults notes.new) result }
{
    push_number(notes, b"pairs ", counts.pairs)?;
    push_number(notes, b" hits ", counts.hits)?;
    push_number(notes, b" misses ", counts.misses)?;
    push_number(notes, b" posted ", counts.posted)?;
    push_number(notes, b" full ", counts.full)?;
    push_number(notes, b" learned ", counts.learned)?;
    push_number(notes, b" rules ", counts.rules)?;
    write_all(notes, b"\n")?;
    Ok(())
}

/// Writes the line of a run's counts, where there are some.
fn push_counts<N: Sink>(notes: &mut N, counts: Option<Counts>) -> Result<(), WriteFault>
    ensures all { OnOk result (N.kept notes.new ≡ after_known (N.kept notes.old) (stats_text counts)) }
    ensures cause { WriteCause (N.faults notes.old) (N.faults notes.new) result }
{
    match counts {
        Some(counts) => push_stats(notes, counts),
        None => write_all(notes, b""),
    }
}

#[tactic(auto, using(po_text::proofs::Known::after_two))]
/// Writes the line of a status, and the line of counts where there are some.
fn push_all<N: Sink>(
    notes: &mut N,
    status: Status,
    counts: Option<Counts>,
) -> Result<(), WriteFault>
    ensures all { OnOk result (N.kept notes.new
        ≡ after_known (N.kept notes.old) (note_line status ++ stats_text counts)) }
    ensures cause { WriteCause (N.faults notes.old) (N.faults notes.new) result }
{
    push_note(notes, status)?;
    push_counts(notes, counts)?;
    Ok(())
}

/// Tells a status, and the counts of a run where there are some. It takes no memory. A fault of the notes changes
/// nothing; where they don't fail, they grow by exactly these lines (docs/PROGRAM.md, "Statuses").
pub fn tell<N: Sink>(notes: &mut N, status: Status, counts: Option<Counts>)
    ensures { N.faults notes.new ≡ N.faults notes.old → N.faults notes.old < 2 ^ 64 - 1
        → N.kept notes.new ≡ after_known (N.kept notes.old) (note_line status ++ stats_text counts) }
{
    match push_all(notes, status, counts) {
        Ok(()) => (),
        Err(_) => (),
    }
}
