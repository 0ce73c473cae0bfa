//! Elimination: an equation is added to pivots, or is found to be against them.

ghost use Rattle.std.specs.Prelude.{◌≡◌, ◌≢◌, ℕ, ◌+◌, ◌-◌, ◌*◌, ◌%◌, ◌<◌, ◌≤◌, ◌^◌, length, get_or, All, IfSome, IfNone, IsTrue, IsFalse};
ghost use Rattle.definitions.specs.Moduli.{IsFieldModulus};
ghost use Rattle.matrix_models.specs.Elimination.{ArePivots, AreSmall, AreFirsts, IsPivot, IsFree, HasLast, HasNoFactor, LiesIn, MeetsAlike, IsAdded, IsAgainst};

use lists::Listing;

// The unknowns from the first to the last one. A row that lies in them has the factor 0 at each other unknown.
#[derive(Clone, Copy)]
struct Stretch {
    first: usize,
    last: usize,
}

// Adds an equation to those that the pivots stand for, where it isn't against them, and tells whether that is so. A row is
// the factors of an equation with its right side behind them, and the pivot of an unknown is a row in which it has the
// factor 1 and each unknown after it the factor 0. So has each unknown before the pivot's place in `firsts`. There is room
// for a row in `wide`.
pub(crate) fn insert(
    modulus: u32,
    pivots: &mut [Option<Listing<u32>>],
    firsts: &mut [usize],
    wide: &mut [u64],
    mut row: Vec<u32>,
) -> bool
    requires field { IsFieldModulus modulus }
    requires few { length pivots.old < 2 ^ 32 }
    requires pivots { ArePivots (length pivots.old) pivots.old }
    requires small { AreSmall modulus pivots.old }
    requires firsts { AreFirsts pivots.old firsts.old }
    requires room { length wide.old ≡ length pivots.old + 1 }
    requires size { length row.items ≡ length pivots.old + 1 }
    requires below { All (λ entry. entry < modulus) row.items }
    ensures len { length pivots.new ≡ length pivots.old }
    ensures pivots { ArePivots (length pivots.old) pivots.new }
    ensures small { AreSmall modulus pivots.new }
    ensures firsts { AreFirsts pivots.new firsts.new }
    ensures room { length wide.new ≡ length wide.old }
    ensures added { IsTrue result → IsAdded modulus (length pivots.old) row.items pivots.old pivots.new }
    ensures against { IsFalse result → IsAgainst modulus (length pivots.old) row.items pivots.old }
    ensures unchanged { IsFalse result → pivots.new ≡ pivots.old }
{
    match normalize(modulus, pivots, firsts, wide, &mut row) {
        Some(stretch) => {
            pivots[stretch.last] = Some(Listing::from_vec(row));
            firsts[stretch.last] = stretch.first;
            true
        }
        None => residue(modulus, wide[pivots.len()]) == 0,
    }
}

// Makes the row one that says the same where the pivots hold, a pivot of an unknown that has none, which it gives. `None`
// comes where no unknown is left, and the wide row says the same then.
fn normalize(
    modulus: u32,
    pivots: &[Option<Listing<u32>>],
    firsts: &[usize],
    wide: &mut [u64],
    row: &mut [u32],
) -> Option<Stretch>
    requires field { IsFieldModulus modulus }
    requires few { length pivots.now < 2 ^ 32 }
    requires pivots { ArePivots (length pivots.now) pivots.now }
    requires small { AreSmall modulus pivots.now }
    requires firsts { AreFirsts pivots.now firsts.now }
    requires room { length wide.old ≡ length pivots.now + 1 }
    requires size { length row.old ≡ length pivots.now + 1 }
    requires below { All (λ entry. entry < modulus) row.old }
    ensures room { length wide.new ≡ length wide.old }
    ensures len { length row.new ≡ length row.old }
    ensures alike { IfSome result (λ _. MeetsAlike modulus (length pivots.now) pivots.now row.old row.new) }
    ensures pivot { IfSome result (λ stretch. IsPivot (length pivots.now) stretch.last row.new) }
    ensures small { IfSome result (λ _. All (λ entry. entry < modulus) row.new) }
    ensures first { IfSome result (λ stretch. HasNoFactor stretch.first row.new) }
    ensures free { IfSome result (λ stretch. IsFree pivots.now stretch.last) }
    ensures none { IfNone result (HasNoFactor (length pivots.now) wide.new) }
    ensures wide_alike { IfNone result (MeetsAlike modulus (length pivots.now) pivots.now row.old wide.new) }
{
    let stretch = reduce(modulus, pivots, firsts, row, wide)?;
    let factor = inverse(modulus, wide[stretch.last] as u32);
    clear(row);
    scale(modulus, row, wide, factor, stretch);
    Some(stretch)
}

// Makes the wide row the row less multiples of the pivots, so that its last unknown has none, and gives the stretch up to that
// unknown, or `None` where no unknown is left. It looks at no unknown before those of the row and of the pivots that it took.
// Only the factor of the last unknown is reduced.
fn reduce(
    modulus: u32,
    pivots: &[Option<Listing<u32>>],
    firsts: &[usize],
    row: &[u32],
    wide: &mut [u64],
) -> Option<Stretch>
    requires field { IsFieldModulus modulus }
    requires few { length pivots.now < 2 ^ 32 }
    requires pivots { ArePivots (length pivots.now) pivots.now }
    requires small { AreSmall modulus pivots.now }
    requires firsts { AreFirsts pivots.now firsts.now }
    requires room { length wide.old ≡ length pivots.now + 1 }
    requires size { length row.now ≡ length pivots.now + 1 }
    requires below { All (λ entry. entry < modulus) row.now }
    ensures len { length wide.new ≡ length wide.old }
    ensures alike { MeetsAlike modulus (length pivots.now) pivots.now row.now wide.new }
    ensures last { IfSome result (λ stretch. HasLast (length pivots.now) wide.new stretch.last) }
    ensures below { IfSome result (λ stretch. get_or wide.new stretch.last 0 < modulus) }
    ensures lies { IfSome result (λ stretch. LiesIn (length pivots.now) stretch.first stretch.last wide.new) }
    ensures free { IfSome result (λ stretch. IsFree pivots.now stretch.last) }
    ensures none { IfNone result (HasNoFactor (length pivots.now) wide.new) }
{
    widen(row, wide);
    let mut first = first_factor(row);
    let mut left = behind_factors(row, pivots.len());
    while left > first {
        let last = left - 1;
        let factor = residue(modulus, wide[last]);
        if factor > 0 {
            match &pivots[last] {
                Some(pivot) => {
                    let stretch = Stretch {
                        first: firsts[last],
                        last,
                    };
                    add_multiple(wide, modulus - factor, pivot.as_slice(), stretch);
                    first = first.min(stretch.first);
                }
                None => {
                    wide[last] = u64::from(factor);
                    return Some(Stretch { first, last });
                }
            }
        }
        wide[last] = 0;
        left = last;
    }
    None
}

// Copies the row.
fn widen(row: &[u32], wide: &mut [u64])
    requires { length wide.old ≡ length row.now }
    ensures { wide.new ≡ row.now }
{
    for place in 0..row.len() {
        wide[place] = u64::from(row[place]);
    }
}

// Makes all numbers 0.
fn clear(row: &mut [u32])
    ensures len { length row.new ≡ length row.old }
    ensures none { HasNoFactor (length row.old) row.new }
{
    for place in 0..row.len() {
        row[place] = 0;
    }
}

// The first place of the row whose number isn't 0, and its length where there is none. Zeros are passed eight at a time.
fn first_factor(row: &[u32]) -> usize
    ensures before { HasNoFactor result row.now }
    ensures there { result < length row.now → 0 < get_or row.now result 0 }
{
    let mut place = 0;
    while row.len() - place >= 8 && are_zero(row, place) {
        place += 8;
    }
    while place < row.len() && row[place] == 0 {
        place += 1;
    }
    place
}

// A place from which on all of the first numbers, so many, are 0: the zeros before their end, as long as eight of them are left.
fn behind_factors(row: &[u32], count: usize) -> usize
    requires { count ≤ length row.now }
    ensures within { result ≤ count }
    ensures behind { (k : ℕ) → result ≤ k → k < count → get_or row.now k 0 ≡ 0 }
{
    let mut left = count;
    while left >= 8 && are_zero(row, left - 8) {
        left -= 8;
    }
    left
}

// Whether the eight numbers from this place on are 0.
fn are_zero(row: &[u32], place: usize) -> bool
    requires { place + 8 ≤ length row.now }
    ensures { IsTrue result → (k : ℕ) → k < 8 → get_or row.now (place + k) 0 ≡ 0 }
{
    let front = row[place] | row[place + 1] | row[place + 2] | row[place + 3];
    let back = row[place + 4] | row[place + 5] | row[place + 6] | row[place + 7];
    front | back == 0
}

// Adds a multiple of another row, which lies in the stretch. The sums aren't reduced.
fn add_multiple(wide: &mut [u64], times: u32, other: &[u32], stretch: Stretch)
    requires room { (k : ℕ) → k < length wide.old → get_or wide.old k 0 + times * get_or other.now k 0 < 2 ^ 64 }
    requires size { length other.now ≡ length wide.old }
    requires within { stretch.last + 1 < length wide.old }
    requires lies { LiesIn (length wide.old - 1) stretch.first stretch.last other.now }
    ensures len { length wide.new ≡ length wide.old }
    ensures each { (k : ℕ) → k < length wide.old → get_or wide.new k 0 ≡ get_or wide.old k 0 + times * get_or other.now k 0 }
{
    for place in stretch.first..stretch.last + 1 {
        wide[place] += u64::from(times) * u64::from(other[place]);
    }
    let right = wide.len() - 1;
    wide[right] += u64::from(times) * u64::from(other[right]);
}

// The number modulo the modulus.
fn residue(modulus: u32, number: u64) -> u32
    requires { 0 < modulus }
    ensures value { result ≡ number % modulus }
    ensures below { result < modulus }
{
    let modulus = u64::from(modulus);
    if number < modulus {
        number as u32
    } else {
        (number % modulus) as u32
    }
}

// Makes the row, whose numbers are 0, a multiple of another one, which lies in the stretch.
fn scale(modulus: u32, row: &mut [u32], wide: &[u64], times: u32, stretch: Stretch)
    requires modulus { 0 < modulus }
    requires none { HasNoFactor (length row.old) row.old }
    requires size { length wide.now ≡ length row.old }
    requires within { stretch.last + 1 < length row.old }
    requires lies { LiesIn (length row.old - 1) stretch.first stretch.last wide.now }
    ensures len { length row.new ≡ length row.old }
    ensures each { (k : ℕ) → k < length row.old → get_or row.new k 0 ≡ (get_or wide.now k 0 * times) % modulus }
{
    for place in stretch.first..stretch.last + 1 {
        row[place] = product(modulus, wide[place], times);
    }
    let right = row.len() - 1;
    row[right] = product(modulus, wide[right], times);
}

// The product of two numbers, modulo the modulus. One of 0 costs no division.
fn product(modulus: u32, number: u64, times: u32) -> u32
    requires { 0 < modulus }
    ensures { result ≡ (number * times) % modulus }
{
    if number == 0 {
        return 0;
    }
    let product = u64::from(residue(modulus, number)) * u64::from(times);
    (product % u64::from(modulus)) as u32
}

// The number whose product with this one is 1 modulo the modulus. Throughout, the number times `factor` is congruent to
// `rest`. The next rest is the remainder of the modulus by this one, to which this one times the modulus less the quotient
// is congruent; it is smaller, and not 0 since the modulus is a prime.
fn inverse(modulus: u32, number: u32) -> u32
    requires field { IsFieldModulus modulus }
    requires positive { 0 < number }
    requires below { number < modulus }
    ensures { (number * result) % modulus ≡ 1 }
{
    let modulus = u64::from(modulus);
    let mut rest = u64::from(number);
    let mut factor = 1;
    while rest > 1 {
        factor = factor * (modulus - modulus / rest) % modulus;
        rest = modulus % rest;
    }
    factor as u32
}
