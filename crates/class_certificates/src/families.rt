// The three families of classes that share no instance, and the ways up to their heads.
ghost use Rattle.std.specs.Prelude.{◌≡◌, ◌<◌, IfOk, length};

use crm_classes::{ClassId, direct, within};
use std::alloc::{AllocError, Global};

/// How many classes the profile has.
const CLASSES: u8 = 71;

/// The families of E2, E52 and E77.
#[derive(Clone, Copy, PartialEq, Eq, Debug)]
pub(crate) enum Family {
    Temporal,
    Span,
    Item,
}

impl Family {
    /// The class that all classes of the family are within.
    pub fn head(self) -> ClassId {
        match self {
            Family::Temporal => ClassId::temporal_entity(),
            Family::Span => ClassId::time_span(),
            Family::Item => ClassId::persistent_item(),
        }
    }
}

/// The family that a class is within; no class is within two.
pub(crate) fn family_of(class: ClassId) -> Option<Family> {
    if within(class, ClassId::temporal_entity()) {
        Some(Family::Temporal)
    } else if within(class, ClassId::time_span()) {
        Some(Family::Span)
    } else if within(class, ClassId::persistent_item()) {
        Some(Family::Item)
    } else {
        None
    }
}

// The steps from each class up to a head, by the number of the class; no way is longer than ten.
fn heights(alloc: Global, head: ClassId) -> Result<Vec<u8>, AllocError>
    ensures { IfOk result (λ v. length v.items ≡ 71) }
{
    let mut kept = vec![in alloc; CLASSES; CLASSES as usize]?;
    let heights = kept.as_mut_slice();
    heights[head.number() as usize] = 0;
    for height in 1..11 {
        raise(heights, height);
    }
    Ok(kept)
}

// Gives the height to each class that has none and of which a direct parent has one less.
fn raise(heights: &mut [u8], height: u8)
    requires all { length heights.old ≡ 71 }
    requires some { 0 < height }
{
    for number in 0..CLASSES {
        let class = ClassId::from_number(number);
        if heights[number as usize] == CLASSES
            && parent_with(heights, class, height - 1).is_some()
        {
            heights[number as usize] = height;
        }
    }
}

// The first direct parent of this height.
fn parent_with(heights: &[u8], class: ClassId, height: u8) -> Option<ClassId>
    requires { length heights.now ≡ 71 }
{
    for number in 0..CLASSES {
        let parent = ClassId::from_number(number);
        if heights[number as usize] == height && direct(class, parent) {
            return Some(parent);
        }
    }
    None
}

/// The ways from all classes up to the head of a family.
#[derive(Drop)]
pub(crate) struct Ways {
    parents: Vec<Option<ClassId>>,
}

impl Ways {
    /// The ways up to the head of the family.
    pub fn build(alloc: Global, family: Family) -> Result<Ways, AllocError> {
        let heights = heights(alloc, family.head())?;
        let mut parents = Vec::new(alloc);
        for number in 0..CLASSES {
            let height = heights[number as usize];
            let parent = if height == 0 || height == CLASSES {
                None
            } else {
                parent_with(&heights, ClassId::from_number(number), height - 1)
            };
            parents.push(parent)?;
        }
        Ok(Ways { parents })
    }

    /// The classes from one up to the head by the fewest direct parents, both among them.
    pub fn way(&self, alloc: Global, class: ClassId) -> Result<Vec<ClassId>, AllocError> {
        let mut way = Vec::new(alloc);
        way.push(class)?;
        let mut at = class;
        for _ in 0..10 {
            match self.parents.get(at.number() as usize) {
                Some(Some(parent)) => {
                    way.push(*parent)?;
                    at = *parent;
                }
                _ => return Ok(way),
            }
        }
        Ok(way)
    }
}
