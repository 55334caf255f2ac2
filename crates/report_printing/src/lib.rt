// The wall page ("report") of a year, written into a lent buffer (document 02, W-205).
#![tactic(auto)]

ghost use Rattle.std.specs.Prelude.{◌≡◌, true, ◌+◌, ◌*◌, ◌≤◌, ◌<◌, length, All};
ghost use Rattle.buffers.specs.Bytes.{put};
ghost use Rattle.year.specs.Setup.{setup_in_range};
ghost use Rattle.columns.specs.Columns.{columns};
ghost use Rattle.report.specs.Report.{head_fields, row_fields, head_of, report};
ghost use Rattle.report_scan.specs.Rows.{report_rows};
ghost use Rattle.report_printing.specs.Lines.{CumsumFits, row_lines};

use buffers::front::put_front;
use columns::{LINE_SIZE, Line};
use progress::Progress;
use report::{Head, Row};
use schedule::periods;
use year::Setup;

// The head's figures.
fn head_of(s: Setup) -> Head
    ensures { result ≡ head_of s }
{
    Head {
        volume: s.volume,
        days: s.days,
        periods: periods(s.volume, s.days),
    }
}

// The head line's columns.
fn head_line(h: Head) -> Line
    requires volume { h.volume < 100000000 }
    requires days { h.days < 1000 }
    requires periods { h.periods < 10 }
    ensures written { result ≡ columns (head_fields h) }
    ensures size { length result ≡ 12 }
{
    let mut line = Line::new();
    line.figure(8, u64::from(h.volume));
    line.figure(3, u64::from(h.days));
    line.figure(1, u64::from(h.periods));
    line
}

// The columns of an engine's line.
fn row_line(r: Row) -> Line
    requires { CumsumFits r }
    ensures written { result ≡ columns (row_fields r) }
    ensures size { length result ≡ 57 }
{
    let mut line = Line::new();
    line.figure(5, u64::from(r.number));
    line.figure(5, u64::from(r.results.hcnox));
    line.figure(5, u64::from(r.results.co));
    line.figure(10, r.cumsum.hcnox.low);
    line.figure(10, r.cumsum.hcnox.high);
    line.figure(10, r.cumsum.co.low);
    line.figure(10, r.cumsum.co.high);
    line.symbol(1, r.marks.hcnox);
    line.symbol(1, r.marks.co);
    line
}

// Writes the lines of rows behind the head line. The rest of the buffer is unchanged.
fn print_rows(rows: &[Row], out: &mut [u8])
    requires fits { All CumsumFits rows.now }
    requires room { 61 * (length rows.now + 1) ≤ length out.old }
    ensures { out.new ≡ put out.old 61 (row_lines rows.now) }
{
    let mut place = LINE_SIZE;
    for r in rows {
        let line = row_line(*r);
        let end = place + LINE_SIZE;
        out[place..end].copy_from_slice(line.as_bytes());
        place = end;
    }
}

// Writes the page at the front of a lent buffer, from what its lines show. The rest of the buffer is unchanged.
pub fn print_report(p: &Progress, rows: &[Row], out: &mut [u8])
    requires setup { setup_in_range p.now.setup ≡ true }
    requires rows { rows.now ≡ report_rows p.now.tested }
    requires room { 61 * (length p.now.tested + 1) ≤ length out.old }
    ensures { out.new ≡ put out.old 0 (report p.now) }
{
    put_front(out, head_line(head_of(p.setup)).as_bytes());
    print_rows(rows, out);
}
