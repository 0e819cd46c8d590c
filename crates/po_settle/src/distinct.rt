//! Texts, sorted by bytes, each once.
ghost use Rattle.std.specs.Prelude.{IfOk};
ghost use Rattle.po_settle.specs.Texts.{texts_of, AreSorted};

use po_word::OutOfMemory;

/// These texts sorted by bytes, each once (docs/RULES.md, "The rules of a run"). It fails only where memory is
/// refused.
pub fn sorted_distinct(texts: Vec<Vec<u8>>) -> Result<Vec<Vec<u8>>, OutOfMemory>
    ensures { IfOk result (λ t. AreSorted (texts_of texts.items) (texts_of t.items)) }
{
    let mut texts = texts;
    texts.sort()?;
    texts.dedup();
    Ok(texts)
}
