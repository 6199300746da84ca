ghost use Rattle.std.specs.Prelude.{◌≡◌, ℕ, List};
ghost use Rattle.std.specs.List.{find};
ghost use Rattle.std.specs.Str.{bytes_eq};

// What has a name of its own in a line.
pub trait Named: Copy {
    ghost name_of: { Self → List ℕ };

    fn name(self) -> &'static str
        ensures { result.now ≡ name_of self };
}

// The first of these whose name is the word.
pub(crate) fn find_named<T: Named>(all: &[T], word: &[u8]) -> Option<T>
    ensures { result ≡ find (λ x. bytes_eq (T.name_of x) word.now) all.now }
{
    all.iter().copied().find(|x| x.name().as_bytes() == word)
}
