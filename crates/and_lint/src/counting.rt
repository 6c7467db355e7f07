//! How often variables occur.

ghost use Rattle.std.specs.Prelude.{◌≡◌, length};
ghost use Rattle.and_lint.specs.Kept.{all_counted, counted};

/// Counts a variable: once, or more than once.
fn count_variable(number: u8, counts: &mut [u8])
    requires { length counts.old ≡ 256 }
    ensures { counts.new ≡ counted counts.old number }
{
    let count = counts[number as usize];
    counts[number as usize] = if count < 2 { count + 1 } else { count };
}

/// Counts these variables.
pub(crate) fn count_variables(variables: &[u8], counts: &mut [u8])
    requires { length counts.old ≡ 256 }
    ensures { counts.new ≡ all_counted counts.old variables.now }
{
    for number in variables {
        count_variable(*number, counts);
    }
}
