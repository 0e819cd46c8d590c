//! What holds of the words of shapes.
ghost use Rattle.po_key.specs.ShapeWords.{WordsTellShapes};

/// Two shapes with the same words are one (docs/RULES.md, "The words of a shape").
pub fn words_tell_shapes()
    ensures { WordsTellShapes }
{}
