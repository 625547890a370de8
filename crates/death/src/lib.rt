// Payment at death, over a layer: each value of the next date's states becomes its share, by the death rate of the period.
#![tactic(auto)]

ghost use Rattle.std.specs.Prelude.{◌≡◌, ℕ, ◌+◌, ◌-◌, ◌*◌, ◌/◌, ◌≤◌, get_or};
ghost use Rattle.slices.specs.Stored.{stored};
ghost use Rattle.slices.specs.Rows.{cells, flat};
ghost use Rattle.rules.specs.Contract.{rate_most};
ghost use Rattle.laws.specs.Date.{shared};
ghost use Rattle.laws.specs.Narrow.{low_most};
ghost use Rattle.death.specs.Shared.{Halves, Run, Row, Rows};

// A death rate above 0, and what it leaves of a value, (10,000 - rate) / 10,000, in two halves of 32 bits, the low one rounded up.
#[derive(Clone, Copy)]
struct Death {
    rate: usize,
    high: u32,
    low: u32,
    ghost halves: { Halves rate high low },
}

impl Death {
    fn new(rate: usize) -> Death
        requires { (1 ≤ rate) × (rate ≤ rate_most) }
        ensures { result.rate ≡ rate }
    {
        let whole = (10000 - rate) * 4294967296;
        Death {
            rate,
            high: (whole / 10000) as u32,
            low: ((whole % 10000 * 4294967296 + 9999) / 10000) as u32,
        }
    }

    // What is left of a value to the holder who lives. Products of 32 bits, for a quotient can't be widened.
    fn left(self, value: u64) -> usize
        requires { value ≤ low_most }
        ensures { (result ≡ (10000 - self.rate) * value / 10000) × (result ≤ low_most) }
    {
        let v = (value % 4294967296) as usize;
        (self.high as usize * v + self.low as usize * v / 4294967296) / 4294967296
    }

    // n states: death pays `paid` in the first, and `step` more in each one behind. By index: a plain loop is widened.
    fn share_run(self, work: &mut [u64], from: usize, n: usize, paid: usize, step: usize)
        requires { Run work.old from n paid step }
        ensures { work.new
            ≡ stored work.old from
            (λ (j : ℕ). paid + step * j + (10000 - self.rate) * get_or work.old (from + j) 0 / 10000)
            n }
    {
        for j in 0..n {
            work[from + j] = (paid + step * j + self.left(work[from + j])) as u64;
        }
    }

    // The states of account w: it is paid up to guarantee w, and the guarantee from there on.
    fn share_row(self, work: &mut [u64], stride: usize, w: usize)
        requires { Row work.old stride w }
        ensures { work.new
            ≡ stored work.old (w * stride) (shared self.rate (cells work.old 0 stride) w) stride }
    {
        let row = w * stride;
        let n = usize::min(w + 1, stride);
        self.share_run(work, row, n, self.rate * w, 0);
        self.share_run(work, row + n, stride - n, self.rate * n, self.rate);
    }
}

// The states of the accounts below n. Where nobody dies nothing changes.
pub fn share_layer(work: &mut [u64], rate: usize, stride: usize, n: usize)
    requires { Rows work.old rate stride n }
    ensures { work.new
        ≡ stored work.old 0 (flat stride (shared rate (cells work.old 0 stride))) (n * stride) }
{
    if rate == 0 {
        return;
    }
    let death = Death::new(rate);
    for w in 0..n {
        death.share_row(work, stride, w);
    }
}
