// A reader asked again and again, each time from where it ended before.
#![tactic(auto)]

ghost use Rattle.each.specs.Laws.Chain.{Chain};

use format::Read;

// What n readings come to, of which the i-th starts where the one before it ended: where the last ends, or the first refusal.
pub fn each_at<F: Fn(usize, u64) -> Read>(read: F, at: usize, n: u64) -> Read
    requires { F.IsAlwaysCallable read }
    ensures { Chain (F.post read) at 0 n result }
{
    let mut p = at;
    for i in 0..n {
        let r = read(p, i);
        let Ok((q, _)) = r else {
            return r;
        };
        p = q;
    }
    Ok((p, 0))
}
