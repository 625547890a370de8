// The discounted sum of every balance and guarantee: a layer filled from the layer of the next date's values.
#![tactic(auto)]

ghost use Rattle.std.specs.Prelude.{true, ◌≡◌, ℕ, ◌+◌, ◌-◌, ◌*◌, ◌≤◌, ◌<◌, length, get_or};
ghost use Rattle.decision.specs.Index.{sum};
ghost use Rattle.slices.specs.Stored.{stored};
ghost use Rattle.slices.specs.Rows.{cells, flat};
ghost use Rattle.rules.specs.Contract.{dates_most, weight_total, returns_most, discount_most, returns_of};
ghost use Rattle.laws.specs.Bounds.{state_most, entry_most};
ghost use Rattle.rules.specs.Date.{discounted};
ghost use Rattle.rules.specs.FixedTerm.{layer_size};
ghost use Rattle.laws.specs.Date.{shared};
ghost use Rattle.contract.specs.Reading.{terms_in};
ghost use Rattle.returns.specs.Sorted.{in_order, Ordered};
ghost use Rattle.expect.specs.Expected.{term, product_most, Reached, Run, Adding, Summed, Eights, Row, Values, reached_from};
ghost use Rattle.expect.specs.Expected.{expected, scaled, Starting};

use contract::Contract;
use returns::Groups;

// By what sums are discounted, and what no value of the next date passes.
#[derive(Clone, Copy)]
struct Average {
    discount: usize,
    most: usize,
    ghost discount_is: { discount ≤ discount_most },
}

impl Average {
    // On date i: no value of date i + 1 is above `most`.
    fn on(c: Contract, i: usize) -> Average
        requires { i ≤ dates_most }
        ensures { (result.discount ≡ c.discount) × (result.most ≡ state_most (terms_in c) (i + 1)) }
    {
        Average {
            discount: c.discount,
            most: 10000 * c.top + c.dates.saturating_sub(i + 1) * (20000 * c.top),
        }
    }
}

// The value that group k reaches with guarantee a. Work and groups stay apart, here and below: work is written
// between runs.
fn reached(work: &[u64], groups: &Groups, k: usize, a: usize) -> u64
    requires { (k < returns_most) × (get_or groups.now.starts k 0 + a < length work.now) }
    ensures { result ≡ get_or work.now (get_or groups.now.starts k 0 + a) 0 }
{
    work[groups.starts[k] + a]
}

// What group k adds to the sum of guarantee a. Of a value the low half is taken, which is all of it: a product of two numbers of
// 32 bits can be widened.
fn product(work: &[u64], groups: &Groups, k: usize, a: usize) -> usize
    requires { (k < returns_most) × Reached work.now groups.now a k }
    ensures { (result ≡ term work.now groups.now a k) × (result ≤ product_most) }
{
    groups.weights[k] as usize * (reached(work, groups, k, a) % 4294967296) as usize
}

// .. and of four groups.
fn four_products(work: &[u64], groups: &Groups, k: usize, a: usize) -> usize
    requires { (k + 4 ≤ returns_most) × ((i : ℕ) → i < k + 4 → Reached work.now groups.now a i) }
    ensures { (sum (term work.now groups.now a) (k + 4)
        ≡ sum (term work.now groups.now a) k + result)
        × (result ≤ 4 * product_most) }
{
    let first = product(work, groups, k, a);
    let second = product(work, groups, k + 1, a);
    let third = product(work, groups, k + 2, a);
    let fourth = product(work, groups, k + 3, a);
    first + second + third + fourth
}

// .. and of eight.
fn eight_products(work: &[u64], groups: &Groups, k: usize, a: usize) -> usize
    requires { (k + 8 ≤ returns_most) × ((i : ℕ) → i < k + 8 → Reached work.now groups.now a i) }
    ensures { (sum (term work.now groups.now a) (k + 8)
        ≡ sum (term work.now groups.now a) k + result)
        × (result ≤ 8 * product_most) }
{
    four_products(work, groups, k, a) + four_products(work, groups, k + 4, a)
}

// Eight groups, for n guarantees: one load and one store of a sum for eight products. By index, here and below: plain loops are widened.
// `sums` is lent whole, with n beside: an array's length is known by its type.
fn add_eight(
    sums: &mut [usize; 512],
    work: &[u64],
    groups: &Groups,
    k: usize,
    from: usize,
    n: usize,
)
    requires { Run work.now groups.now (k + 8) from n × Adding sums.old n k }
    ensures { sums.new
        ≡ stored sums.old 0
        (λ (j : ℕ). get_or sums.old j 0 + sum (λ (e : ℕ). term work.now groups.now (from + j) (k + e)) 8)
        n }
{
    for j in 0..n {
        sums[j] += eight_products(work, groups, k, from + j);
    }
}

// What is paid on arrival and the first eight: their sums are stored, whatever stood there, so that no zeros need be written and
// read before.
fn set_eight(sums: &mut [usize; 512], work: &[u64], groups: &Groups, from: usize, n: usize)
    requires { Run work.now groups.now 8 from n × (groups.now.paid ≤ product_most) }
    ensures { Summed work.now groups.now sums.new from n 8 }
{
    for j in 0..n {
        sums[j] = groups.paid + eight_products(work, groups, 0, from + j);
    }
}

// The sums of n guarantees, from `from` on, with what is paid on arrival; whatever stood in `sums`.
fn add_all(sums: &mut [usize; 512], work: &[u64], groups: &Groups, from: usize, n: usize)
    requires { Run work.now groups.now groups.now.count from n
        × Eights groups.now.count
        × (groups.now.paid ≤ product_most) }
    ensures { Summed work.now groups.now sums.new from n groups.now.count }
{
    set_eight(sums, work, groups, from, n);
    for k in (8..groups.count).step_by(8) {
        add_eight(sums, work, groups, k, from, n);
    }
}

// A sum, discounted and times 8,192. In a loop `low` is the same for all, so that the loop has no branch.
fn scaled_sum(low: bool, discount: usize, sum: usize) -> u64
    requires { (discount ≤ discount_most)
        × (sum ≤ weight_total * entry_most)
        × (low ≡ true → sum ≤ 18000000000000) }
    ensures { result ≡ 8192 * discounted discount sum }
{
    if low {
        return 8192 * (discount * sum / 10000000000) as u64;
    }
    8192 * date::discounted(discount, sum) as u64
}

// The sums, of which `paid` is paid on arrival, discounted and times 8,192.
fn store_sums(
    work: &mut [u64],
    sums: &[usize; 512],
    average: Average,
    paid: usize,
    to: usize,
    n: usize,
)
    requires { (n ≤ 512)
        × (to + n ≤ length work.old)
        × (paid + weight_total * average.most ≤ weight_total * entry_most)
        × ((j : ℕ) → j < n → get_or sums.now j 0 ≤ paid + weight_total * average.most) }
    ensures { work.new
        ≡ stored work.old to (λ (j : ℕ). 8192 * discounted average.discount (get_or sums.now j 0)) n }
{
    let low = paid + 10000 * average.most <= 18000000000000;
    for j in 0..n {
        work[to + j] = scaled_sum(low, average.discount, sums[j]);
    }
}

// n guarantees of the row at `to`, from `from` on.
#[derive(Clone, Copy)]
struct Part {
    to: usize,
    from: usize,
    n: usize,
}

// The discounted sums of a part of a row, times 8,192. What stood in `sums` does not matter.
fn expect_run(work: &mut [u64], sums: &mut [usize; 512], groups: &Groups, average: Average, p: Part)
    requires { Row work.old groups.now average.most p.to (p.from + p.n) × (p.n ≤ 512) }
    ensures { work.new
        ≡ stored work.old (p.to + p.from)
        (λ (j : ℕ).
        8192
        * discounted average.discount
        (groups.now.paid + sum (term work.old groups.now (p.from + j)) groups.now.count))
        p.n }
{
    add_all(sums, &work[..], groups, p.from, p.n);
    store_sums(work, sums, average, groups.paid, p.to + p.from, p.n);
}

// The row at `to`: the discounted sum of each guarantee, times 8,192, 512 at a time.
fn expect_row(
    work: &mut [u64],
    sums: &mut [usize; 512],
    groups: &Groups,
    average: Average,
    to: usize,
    stride: usize,
)
    requires { Row work.old groups.now average.most to stride }
    ensures { work.new
        ≡ stored work.old to
        (λ (a : ℕ).
        8192
        * discounted average.discount
        (groups.now.paid + sum (term work.old groups.now a) groups.now.count))
        stride }
{
    for from in (0..stride).step_by(512) {
        let n = usize::min(512, stride - from);
        expect_run(work, sums, groups, average, Part { to, from, n });
    }
}

// The second layer: the discounted sum of every balance and guarantee, times 8,192, where the first holds the values of date i + 1.
// The returns are in order of their factors.
pub fn expect_layer(work: &mut [u64], order: &[u32], c: Contract, i: usize)
    requires { Ordered (in_order order.now) × Values (terms_in c) i work.old × (i ≤ dates_most) }
    ensures { work.new
        ≡ stored work.old (layer_size (terms_in c))
        (flat (c.premium + 1)
        (scaled (expected (terms_in c) (in_order order.now)
        (cells work.old 0 (c.premium + 1)))))
        (layer_size (terms_in c)) }
{
    let stride = c.stride();
    let size = c.layer_size();
    let average = Average::on(c, i);
    // One of each for all balances: what a balance leaves there does not matter to the next, and clearing takes time.
    let mut sums = [0usize; 512];
    let mut groups = Groups::new();
    for balance in 0..c.top + 1 {
        groups.gather(order, c, balance, stride);
        expect_row(
            work,
            &mut sums,
            &groups,
            average,
            size + balance * stride,
            stride,
        );
    }
}

// What return k is worth from the start: its excess, and the share of the value of the state that it leads to.
fn first_reached(work: &[u64], list: &[u8], rate: usize, c: Contract, k: usize) -> usize
    requires { Starting (terms_in c) rate work.now list.now × (k < (returns_of list.now).count) }
    ensures { (result
        ≡ reached_from (terms_in c) (returns_of list.now) (shared rate (cells work.now 0 (c.premium + 1)))
        c.premium c.premium k)
        × (result ≤ entry_most) }
{
    let factor = input::factor_of(list, k);
    let account = date::next_account(c.fee, c.top, c.premium, factor);
    let paid = date::excess_paid(c.fee, c.top, c.premium, factor);
    let value = work[account * c.stride() + c.premium] as usize;
    let payment = date::death_payment(account, c.premium);
    paid + date::death_share(rate, value, payment)
}

// The discounted sum over the first return, from balance and guarantee U. By index, as input::total_weight.
pub fn start_value(work: &[u64], list: &[u8], rate: usize, c: Contract) -> u64
    requires { Starting (terms_in c) rate work.now list.now }
    ensures { (result
        ≡ expected (terms_in c) (returns_of list.now) (shared rate (cells work.now 0 (c.premium + 1)))
        c.premium c.premium)
        × (result ≤ entry_most) }
{
    let mut sum: usize = 0;
    for k in 0..input::returns_in(list) {
        sum += input::weight_of(list, k) * first_reached(work, list, rate, c, k);
    }
    date::discounted(c.discount, sum) as u64
}
