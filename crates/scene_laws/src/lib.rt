// What appending does to whole scenes, beyond the definition that `Encoding::append` is proved equal to.
#![tactic(auto)]

ghost use Rattle.scene_laws.specs.AppendLaws.{AppendLaws};

// Append keeps the first scene in front, an empty scene changes only the flags, and without a
// transform it does not matter which of two appends comes first.
pub fn append_laws()
    ensures { AppendLaws }
{}
