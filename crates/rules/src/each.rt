// A test of each row of a table. As `all` of an iterator, with a contract that a proof can cite for several tables at once.
ghost use Rattle.std.specs.Prelude.{◌≡◌, Bool};
ghost use Rattle.model.specs.Lent.{every};
ghost use Rattle.rules.specs.Walks.{Decides};

pub fn every<R, F: Fn(&R) -> bool>(rows: &[R], keeps: F) -> bool
    requires { F.IsAlwaysCallable keeps }
    ensures { (test : R → Bool) → Decides (F.post keeps) test → result ≡ every test rows.now }
{
    for row in rows {
        if !keeps(row) {
            return false;
        }
    }
    true
}
