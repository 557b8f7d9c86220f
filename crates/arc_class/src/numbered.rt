//! Maps from numbers to numbers, which share their parts.
ghost use Rattle.std.specs.Prelude.{◌≡◌, ◌<◌, ◌≤◌, ◌^◌, ℕ, nat_le, IfOk, IfErr};
ghost use Rattle.arc_fault.specs.declared.class.ClassFault.TheVariants.{Memory};
ghost use Rattle.arc_class.specs.NumberMaps as specs;
ghost use Rattle.arc_class.specs.NumberMaps.{at_number, IsWithin, Puts};

use arc_fault::class::ClassFault;

/// The most binary digits that the numbers have that a map is asked for: they are below 2^20.
pub const MOST_LEVELS: u32 = 20;

/// Whether there are so many numbers of so many binary digits.
pub fn has_numbers(levels: u32, count: usize) -> bool
    ensures { result ≡ nat_le count (2 ^ levels) }
{
    match 2_usize.checked_pow(levels) {
        None => true,
        Some(numbers) => count <= numbers,
    }
}

/// The fewest binary digits of which there are so many numbers, or the most that a map's numbers have, where these are fewer.
pub fn levels_for(count: usize) -> u32
    ensures most { result ≤ MOST_LEVELS }
    ensures enough { result < MOST_LEVELS → count ≤ 2 ^ result }
    ensures fewest { (fewer : ℕ) → fewer < result → 2 ^ fewer < count }
{
    for levels in 0..MOST_LEVELS {
        if has_numbers(levels, count) {
            return levels;
        }
    }
    MOST_LEVELS
}

/// A part of a map. `even` serves the even numbers, and `odd` the odd ones: each is the number of a
/// further part, which is asked for half of the number. After the last binary digit it is the value
/// that the map has.
#[derive(Clone, Copy)]
pub struct Node {
    pub even: Option<u32>,
    pub odd: Option<u32>,
}

impl Node {
    /// What is on the side of the number.
    fn side(self, number: usize) -> Option<u32>
        ensures { result ≡ specs.side self number }
    {
        if number % 2 == 0 { self.even } else { self.odd }
    }

    /// The same, with this on the side of the number.
    fn with_side(self, number: usize, at: u32) -> Node
        ensures { result ≡ specs.with_side self number at }
    {
        if number % 2 == 0 {
            Node {
                even: Some(at),
                odd: self.odd,
            }
        } else {
            Node {
                even: self.even,
                odd: Some(at),
            }
        }
    }
}

/// The part with the number, and one with nothing where there is none.
fn node_at(nodes: &[Node], at: Option<u32>) -> Node
    ensures { result ≡ specs.node_at nodes.now at }
{
    let empty = Node {
        even: None,
        odd: None,
    };
    let Some(at) = at else {
        return empty;
    };
    match nodes.get(at as usize) {
        None => empty,
        Some(node) => *node,
    }
}

/// What the map that begins at this part has at the number, which has so many binary digits.
pub fn find(nodes: &[Node], levels: usize, first: Option<u32>, number: usize) -> Option<u32>
    ensures { result ≡ at_number levels nodes.now first number }
{
    let mut at = first;
    let mut left = number;
    for _level in 0..levels {
        at = node_at(nodes, at).side(left);
        left /= 2;
    }
    at
}

/// Makes a map that has the value at the number, and at all others what the map has that begins at
/// this part; answers its first part. Only new parts are added, so all other maps stay. Memory: there
/// was none, or so many parts have no numbers.
pub fn put(
    nodes: &mut Vec<Node>,
    levels: usize,
    first: Option<u32>,
    number: usize,
    value: u32,
) -> Result<u32, ClassFault>
    requires within { IsWithin levels nodes.old.items first }
    requires fits { number < 2 ^ levels }
    ensures put { IfOk result (λ at. Puts levels nodes.old.items nodes.new.items first number value at) }
    ensures refused { IfErr result (λ fault. fault ≡ Memory) }
{
    if levels == 0 {
        return Ok(value);
    }
    let node = node_at(nodes, first);
    let below = put(nodes, levels - 1, node.side(number), number / 2, value)?;
    let parts: &[Node] = nodes;
    let Ok(at) = u32::try_from(parts.len()) else {
        return Err(ClassFault::Memory);
    };
    nodes.push(node.with_side(number, below))?;
    Ok(at)
}
