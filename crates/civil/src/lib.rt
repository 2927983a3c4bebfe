// The civil calendar: the date of a day, by stepping through years and months.
#![tactic(auto)]

ghost use Rattle.std.specs.Prelude.{◌≡◌, ◌<◌};
ghost use Rattle.civil.specs.Calendar.{leap, month_days, year_days, Valid, day_of};
ghost use Rattle.civil.specs.Laws.Steps.{row, Years, Months};

#[derive(Clone, Copy)]
pub struct Civil {
    pub year: u64,
    pub month: u64,
    pub day: u64,
}

const LENGTHS: [[u8; 12]; 2] = [
    [31, 28, 31, 30, 31, 30, 31, 31, 30, 31, 30, 31],
    [31, 29, 31, 30, 31, 30, 31, 31, 30, 31, 30, 31],
];

// The row of LENGTHS for a year.
fn row_of(y: u64) -> usize
    ensures { (result ≡ row (leap y)) × (result < 2) }
{
    if y % 400 == 0 {
        return 1;
    }
    if y % 100 == 0 {
        return 0;
    }
    if y % 4 == 0 {
        return 1;
    }
    0
}

fn month_days(y: u64, m: usize) -> u64
    requires { m < 12 }
    ensures { result ≡ month_days y m }
{
    let i = row_of(y);
    u64::from(LENGTHS[i][m])
}

fn year_days(y: u64) -> u64
    ensures { (result ≡ year_days y) × (0 < result) }
{
    365 + row_of(y) as u64
}

#[derive(Clone, Copy)]
struct Split {
    whole: u64,
    left: u64,
}

// The whole years from 100 on, and the days left of the next.
fn years_in(n: u64) -> Split
    ensures { Years n result.whole result.left }
{
    let mut whole: u64 = 0;
    let mut left = n;
    loop {
        let d = year_days(100 + whole);
        if left < d {
            return Split { whole, left };
        }
        left = left - d;
        whole = whole + 1;
    }
}

// The whole months of a year, and the days left of the next.
fn months_in(y: u64, n: u64) -> Split
    requires { n < year_days y }
    ensures { Months y n result.whole result.left × (result.whole < 12) }
{
    let mut m: usize = 0;
    let mut left = n;
    loop {
        let d = month_days(y, m);
        if left < d {
            return Split {
                whole: m as u64,
                left,
            };
        }
        left = left - d;
        m = m + 1;
    }
}

// The date of a day, day 0 being 1 January 100.
pub fn civil_of(n: u64) -> Civil
    ensures { Valid result × (day_of result ≡ n) }
{
    let a = years_in(n);
    let year = 100 + a.whole;
    let b = months_in(year, a.left);
    Civil {
        year,
        month: b.whole + 1,
        day: b.left + 1,
    }
}
