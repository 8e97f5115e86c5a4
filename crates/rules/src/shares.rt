// Whether the shares that the rows of one table name use another table exactly (rule 1).
ghost use Rattle.std.specs.Prelude.{◌≡◌, ◌<◌, eqb};
ghost use Rattle.model.specs.Rules as definition;

// The shares stand in one word of each row. Each is taken off what is left, so that no sum wraps.
pub fn shares_use<const N: usize>(rows: &[[u64; N]], word: usize, n: usize) -> bool
    requires { word < N }
    ensures { result ≡ eqb (definition.total word rows.now) n }
{
    let mut left = n as u64;
    for row in rows {
        let share = row[word];
        if left < share {
            return false;
        }
        left -= share;
    }
    left == 0
}
