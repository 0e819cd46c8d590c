//! The writer that shows readers one version after another.
ghost use Rattle.std.specs.Prelude.{◌≡◌, [], ◌∷◌, ◌++◌, drop, fold, IsSome, IfSome, IfOk};

use crate::edition::Whole;
use crossbeam_utils::rule::Unruled;
use left_right::writer::Writer;
use po_word::OutOfMemory;
use std::sync::Wait;
use std::thread;

type Inner<V> = Writer<V, V, (), Unruled>;

/// What readers are shown. It keeps the runtime, since its drop waits for the readers inside.
pub struct Board<V: Whole, R: Wait + Drop> {
    /// It is out while the next version is shown.
    writer: Option<Inner<V>>,
    rt: R,
}

impl<V: Whole, R: Wait + Drop> Drop for Board<V, R> {
    fn drop(self) {
        let Self { writer, rt } = self;
        if let Some(writer) = writer {
            drop(writer.take(&rt));
        }
    }
}

impl<V: Whole, R: Wait + Drop> Board<V, R> {
    /// A board that shows what the writer does.
    pub(crate) fn new(rt: R, writer: Inner<V>) -> Board<V, R>
        ensures { IsSome result.writer × IfSome result.writer (λ w. w.desk.shown.value ≡ writer.desk.shown.value) }
    {
        Board {
            writer: Some(writer),
            rt,
        }
    }

    /// Shows readers this version. What is refused for a moment is tried again, and readers that still have the copy
    /// from before the last version are waited for.
    pub(crate) fn show(&mut self, version: V)
        requires { IsSome self.old.writer }
        ensures { IsSome self.new.writer × IfSome self.new.writer (λ w. w.desk.shown.value ≡ version) }
    {
        let Some(writer) = self.writer.take() else {
            unreachable!()
        };
        let writer = append(&self.rt, writer, version);
        let writer = publish(&self.rt, writer);
        if let Some(none) = self.writer.replace(writer) {
            drop(none.take(&self.rt));
        }
    }
}

/// The writer with room for two versions that readers don't see yet, which is all that a board keeps, so no later
/// version needs memory. It shows the second of these two, and nothing is behind it.
pub(crate) fn with_room<V: Whole, R: Wait>(
    rt: &R,
    writer: Inner<V>,
    one: V,
    two: V,
) -> Result<Inner<V>, OutOfMemory>
    ensures shown { IfOk result (λ w. w.desk.shown.value ≡ two) }
    ensures pending { IfOk result (λ w. drop w.behind w.log.items ≡ []) }
{
    let first = put(rt, writer, one)?;
    let both = put(rt, first, two)?;
    let shown = publish(rt, both);
    // The second time the copy that isn't shown comes up with the other, and the room is free.
    let free = publish(rt, shown);
    Ok(free)
}

/// Puts this version behind what readers don't see yet, or ends the writer where memory is refused.
fn put<V: Whole, R: Wait>(rt: &R, mut writer: Inner<V>, version: V) -> Result<Inner<V>, OutOfMemory>
    ensures shown { IfOk result (λ w. w.desk.shown.value ≡ writer.desk.shown.value) }
    ensures pending { IfOk result
        (λ w. drop w.behind w.log.items ≡ drop writer.behind writer.log.items ++ version ∷ []) }
{
    if writer.append(version).is_err() {
        drop(writer.take(rt));
        return Err(OutOfMemory);
    }
    Ok(writer)
}

/// Puts this version behind what readers don't see yet.
fn append<V: Whole, R: Wait>(rt: &R, mut writer: Inner<V>, version: V) -> Inner<V>
    ensures shown { result.desk.shown.value ≡ writer.desk.shown.value }
    ensures pending { drop result.behind result.log.items ≡ drop writer.behind writer.log.items ++ version ∷ [] }
{
    let mut version = version;
    for _ in rt.forever() {
        match writer.append(version) {
            Ok(()) => return writer,
            Err(back) => version = back,
        }
        thread::yield_now();
    }
    unreachable!()
}

/// Shows readers all that they don't see yet.
fn publish<V: Whole, R: Wait>(rt: &R, writer: Inner<V>) -> Inner<V>
    ensures shown { V.state result.desk.shown.value
        ≡ fold V.applied (V.state writer.desk.shown.value) (drop writer.behind writer.log.items) }
    ensures pending { drop result.behind result.log.items ≡ [] }
{
    let mut writer = writer;
    for _ in rt.forever() {
        let (next, done) = writer.publish_as::<Unruled, R>(rt);
        writer = next;
        if done.is_ok() {
            return writer;
        }
        thread::yield_now();
    }
    unreachable!()
}
