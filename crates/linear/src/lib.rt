// The dot product over slices.
#![tactic(auto)]

ghost use Rattle.std.specs.Prelude.{◌≡◌, ◌+◌, ◌*◌, ◌<◌, ◌≤◌, ◌^◌};
ghost use Rattle.linear.specs.Reach.{dot_of, Reach};

use integer::add_product;

// The sum over j below n of a[p + j * s] * x[q + j * u]; the places are carried from term to term.
pub fn dot(a: &[i64], p: usize, s: usize, x: &[i64], q: usize, u: usize, n: usize) -> i64
    requires n_bound { (n ≤ 32) × ((p + n * s < 2 ^ 63) × (q + n * u < 2 ^ 63)) }
    requires reach { Reach a.now p s n (2 ^ 20) }
    requires reach_2 { Reach x.now q u n (2 ^ 36) }
    ensures { result ≡ dot_of a.now p s x.now q u n }
{
    // Places that are carried: `step_by` refuses a stride of 0, which the clauses of `dot` allow.
    let mut sum: i64 = 0;
    let mut at_a = p;
    let mut at_x = q;
    for j in 0..n {
        sum = add_product(sum, a[at_a], x[at_x]);
        at_a += s;
        at_x += u;
    }
    sum
}
