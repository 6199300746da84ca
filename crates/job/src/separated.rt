ghost use Rattle.std.specs.Iterator.{IsFinite};

use std::fmt;

// Writes the items with a separator between.
pub(crate) fn write_separated<I: Iterator + Drop, W: fmt::Write>(
    mut items: I,
    separator: &str,
    f: &mut fmt::Formatter<W>,
) -> fmt::Result
where
    I::Item: fmt::Display + Drop,
    requires can { I.can_next items }
    requires ends { IsFinite (I.remaining items) }
{
    let Some(first) = items.next() else {
        return Ok(());
    };
    write!(f, "{first}")?;
    for item in items {
        write!(f, "{separator}{item}")?;
    }
    Ok(())
}
