ghost use Rattle.page.specs.Examples.{Padding, OpenClip, TwoGlyphs, NotANumber};

// Worked pages, as theorems about the definitions.
pub fn worked_pages()
    ensures padding { Padding }
    ensures clip { OpenClip }
    ensures glyphs { TwoGlyphs }
    ensures nan { NotANumber }
{}
