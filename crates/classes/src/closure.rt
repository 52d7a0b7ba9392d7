ghost use Rattle.std.specs.Prelude.{◌≤◌};
ghost use Rattle.classes.specs.Squares.{IsSquare, RowJoinable, RowsJoinable, RowJoined, RowsJoined, ClosedUpTo};

// Row i with row k's dependencies added where i depends on k.
fn join_row(dep: &mut [[bool; 96]; 96], n: usize, k: usize, i: usize)
    requires { RowJoinable n k i dep.old }
    ensures { RowJoined n k i dep.old dep.new }
{
    if dep[i][k] {
        for j in 0..n {
            if dep[k][j] {
                dep[i][j] = true;
            }
        }
    }
}

fn round(dep: &mut [[bool; 96]; 96], n: usize, k: usize)
    requires { RowsJoinable n k dep.old }
    ensures { RowsJoined n k dep.old dep.new n }
{
    for i in 0..n {
        join_row(dep, n, k, i);
    }
}

// The first n rows and columns closed under going through a third.
pub fn close(dep: &mut [[bool; 96]; 96], n: usize)
    requires { (n ≤ 96) × IsSquare 96 dep.old }
    ensures { ClosedUpTo n dep.old dep.new n }
{
    for k in 0..n {
        round(dep, n, k);
    }
}
