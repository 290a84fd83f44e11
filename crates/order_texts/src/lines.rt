// Texts appended to a line.
ghost use Rattle.std.specs.Prelude.{◌≡◌, ◌++◌, ◌∷◌, ◌+◌, ◌*◌, ◌/◌, ◌<◌, length, OnOk, decimal};
ghost use Rattle.order_texts.specs.Texts as spec;

use itoa::Buffer;
use order_core::{By, Order, Placing, Point, Position};
use std::alloc::AllocError;

fn append_number(letter: u8, n: u64, line: &mut Vec<u8>) -> Result<(), AllocError>
    ensures { OnOk result (line.new.items ≡ line.old.items ++ letter ∷ decimal n) }
{
    line.push(letter)?;
    line.extend_from_slice(Buffer::new().format(n).as_bytes())
}

/// Appends a point: `sK` for the start of extent K, `eK` for its end, `dK` for a date.
pub fn append_point(point: Point, line: &mut Vec<u8>) -> Result<(), AllocError>
    ensures { OnOk result (line.new.items ≡ line.old.items ++ spec.point_text point) }
{
    match point {
        Point::Start(k) => append_number(b's', k as u64, line),
        Point::End(k) => append_number(b'e', k as u64, line),
        Point::Date(k) => append_number(b'd', k as u64, line),
    }
}

fn append_by(by: By, line: &mut Vec<u8>) -> Result<(), AllocError>
    ensures { OnOk result (line.new.items ≡ line.old.items ++ spec.by_text by) }
{
    match by {
        By::Triple(i) => append_number(b't', i as u64, line),
        By::Extent(k) => append_number(b'x', k as u64, line),
        By::Dates => line.extend_from_slice(b"dates"),
    }
}

fn append_sign(strict: bool, line: &mut Vec<u8>) -> Result<(), AllocError>
    ensures { OnOk result (line.new.items ≡ line.old.items ++ spec.sign_text strict) }
{
    if strict {
        line.extend_from_slice(b" < ")
    } else {
        line.extend_from_slice(b" <= ")
    }
}

fn append_relation(order: &Order, line: &mut Vec<u8>) -> Result<(), AllocError>
    ensures { OnOk result (line.new.items ≡ line.old.items ++ spec.order_text order.now) }
{
    append_point(order.low, line)?;
    append_sign(order.strict, line)?;
    append_point(order.high, line)?;
    line.push(b' ')?;
    append_by(order.by, line)
}

/// Appends the line of a word and a number.
#[tactic(auto, unfolding(crate::specs::Texts::count_line))]
pub fn append_count(word: &str, n: u64, line: &mut Vec<u8>) -> Result<(), AllocError>
    ensures { OnOk result (line.new.items ≡ line.old.items ++ spec.count_line word.now n) }
{
    line.extend_from_slice(word.as_bytes())?;
    append_number(b' ', n, line)?;
    line.push(b'\n')?;
    Ok(())
}

/// Appends the line of an order: `oN LOW < HIGH BY` or `oN LOW <= HIGH BY`, where BY is the triple
/// `tI`, the extent `xK` or `dates`.
#[tactic(auto, unfolding(crate::specs::Texts::order_line))]
pub fn append_order(n: usize, order: &Order, line: &mut Vec<u8>) -> Result<(), AllocError>
    ensures { OnOk result (line.new.items ≡ line.old.items ++ spec.order_line n order.now) }
{
    append_number(b'o', n as u64, line)?;
    line.push(b' ')?;
    append_relation(order, line)?;
    line.push(b'\n')?;
    Ok(())
}

/// Appends the line of a date: `dK` and its instant.
#[tactic(auto, unfolding(crate::specs::Texts::date_line))]
pub fn append_date(k: usize, instant: i128, line: &mut Vec<u8>) -> Result<(), AllocError>
    ensures { OnOk result (line.new.items ≡ line.old.items ++ spec.date_line k instant) }
{
    append_number(b'd', k as u64, line)?;
    line.push(b' ')?;
    line.extend_from_slice(Buffer::new().format(instant).as_bytes())?;
    line.push(b'\n')?;
    Ok(())
}

fn append_step(n: u32, line: &mut Vec<u8>) -> Result<(), AllocError>
    ensures { OnOk result (line.new.items ≡ line.old.items ++ spec.step_text n) }
{
    line.push(b' ')?;
    append_number(b'o', n as u64, line)
}

/// Appends ` oN` for each order of a chain.
pub fn append_chain(orders: &[u32], line: &mut Vec<u8>) -> Result<(), AllocError>
    ensures { OnOk result (line.new.items ≡ line.old.items ++ spec.chain_text orders.now) }
{
    for n in orders {
        append_step(*n, line)?;
    }
    Ok(())
}

fn append_position(position: Position, line: &mut Vec<u8>) -> Result<(), AllocError>
    ensures { OnOk result (line.new.items ≡ line.old.items ++ spec.position_text position) }
{
    line.extend_from_slice(Buffer::new().format(position.instant).as_bytes())?;
    append_number(b'/', position.rank as u64, line)
}

fn append_boundary(
    letter: u8,
    k: u64,
    position: Position,
    line: &mut Vec<u8>,
) -> Result<(), AllocError>
    ensures { OnOk result (line.new.items ≡ line.old.items ++ spec.boundary_text letter k position) }
{
    line.push(b' ')?;
    append_number(letter, k, line)?;
    line.push(b'=')?;
    append_position(position, line)
}

fn append_extent(k: usize, positions: &[Position], line: &mut Vec<u8>) -> Result<(), AllocError>
    requires { 2 * k + 1 < length positions.now }
    ensures { OnOk result (line.new.items ≡ line.old.items ++ spec.extent_text positions.now k) }
{
    append_boundary(b's', k as u64, positions[2 * k], line)?;
    append_boundary(b'e', k as u64, positions[2 * k + 1], line)
}

fn append_extents(positions: &[Position], line: &mut Vec<u8>) -> Result<(), AllocError>
    ensures { OnOk result (line.new.items ≡ line.old.items ++ spec.extent_texts positions.now (length positions.now / 2)) }
{
    for k in 0..positions.len() / 2 {
        append_extent(k, positions, line)?;
    }
    Ok(())
}

/// Appends the line of a placing: its name, and ` sK=INSTANT/RANK eK=INSTANT/RANK` for each extent.
#[tactic(auto, unfolding(crate::specs::Texts::placing_line))]
pub fn append_placing(name: &[u8], placing: &Placing, line: &mut Vec<u8>) -> Result<(), AllocError>
    ensures { OnOk result (line.new.items ≡ line.old.items ++ spec.placing_line name.now placing.now) }
{
    line.extend_from_slice(b"placing ")?;
    line.extend_from_slice(name)?;
    append_extents(placing.as_slice(), line)?;
    line.push(b'\n')?;
    Ok(())
}
