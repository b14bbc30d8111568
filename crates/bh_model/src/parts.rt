ghost use Rattle.std.specs.Prelude.{◌≡◌, map};
ghost use Rattle.bh_model.specs.Parts as spec;
ghost use Rattle.bh_model.specs.Shown.{naming_of};

use bh_types::wanted::Named;

/// Whether the numbers ascend.
pub fn ascends(named: &[Named]) -> bool
    ensures { result ≡ spec.ascends (map (λ n. n.number) (map naming_of named.now)) }
{
    match named {
        [first, rest @ ..] => match rest {
            [second, ..] => first.number < second.number && ascends(rest),
            [] => true,
        },
        [] => true,
    }
}
