// The texts of trees.
ghost use Rattle.std.specs.Prelude.{◌≡◌, ◌++◌, OnOk, IfOk, codes, string_bytes};
ghost use Rattle.std.specs.Fmt.{decimal};
ghost use Rattle.certificate_trees.specs.TreeTexts.{order_leaf, shared_leaf, tree_bytes};

use crate::rules::{Join, Weaken};
use crm_outside::Text;
use proof_core::{Proof, SharedLeaf};
use std::alloc::{AllocError, Global};

fn push_number(alloc: Global, text: &mut String, number: u32) -> Result<(), AllocError>
    ensures { OnOk result (string_bytes text.new ≡ string_bytes text.old ++ decimal number) }
{
    let digits = format!(in alloc; "{number}")?;
    text.push_str(&digits)?;
    Ok(())
}

fn push_order_leaf(alloc: Global, text: &mut String, order: u32) -> Result<(), AllocError>
    ensures { OnOk result (string_bytes text.new ≡ string_bytes text.old ++ order_leaf order) }
{
    text.push_str("o")?;
    push_number(alloc, text, order)
}

fn push_shared_leaf(
    alloc: Global,
    text: &mut String,
    leaf: &SharedLeaf<u32>,
) -> Result<(), AllocError>
    ensures { OnOk result (string_bytes text.new ≡ string_bytes text.old ++ shared_leaf leaf.now) }
{
    match leaf {
        SharedLeaf::Own(order) => push_order_leaf(alloc, text, *order),
        SharedLeaf::Earlier(n) => {
            text.push_str("l")?;
            push_number(alloc, text, *n)
        }
    }
}

fn push_tree(
    alloc: Global,
    text: &mut String,
    proof: &Proof<u32, Weaken, Join>,
) -> Result<(), AllocError>
    ensures { OnOk result (string_bytes text.new ≡ string_bytes text.old ++ tree_bytes order_leaf proof.now) }
{
    match proof {
        Proof::Leaf(order) => push_order_leaf(alloc, text, *order),
        Proof::One(_, part) => {
            text.push_str("w(")?;
            push_tree(alloc, text, part)?;
            text.push_str(")")?;
            Ok(())
        }
        Proof::Two(_, first, second) => {
            text.push_str("j(")?;
            push_tree(alloc, text, first)?;
            text.push_str(",")?;
            push_tree(alloc, text, second)?;
            text.push_str(")")?;
            Ok(())
        }
    }
}

fn push_shared_tree(
    alloc: Global,
    text: &mut String,
    proof: &Proof<SharedLeaf<u32>, Weaken, Join>,
) -> Result<(), AllocError>
    ensures { OnOk result (string_bytes text.new ≡ string_bytes text.old ++ tree_bytes shared_leaf proof.now) }
{
    match proof {
        Proof::Leaf(leaf) => push_shared_leaf(alloc, text, leaf),
        Proof::One(_, part) => {
            text.push_str("w(")?;
            push_shared_tree(alloc, text, part)?;
            text.push_str(")")?;
            Ok(())
        }
        Proof::Two(_, first, second) => {
            text.push_str("j(")?;
            push_shared_tree(alloc, text, first)?;
            text.push_str(",")?;
            push_shared_tree(alloc, text, second)?;
            text.push_str(")")?;
            Ok(())
        }
    }
}

/// The text of a tree whose leaves are orders: `oN`, `w(..)` and `j(..,..)`.
pub fn tree_text(alloc: Global, proof: &Proof<u32, Weaken, Join>) -> Result<Text, AllocError>
    ensures { IfOk result (λ t. t ≡ tree_bytes order_leaf proof.now) }
{
    let mut text = String::new(alloc);
    push_tree(alloc, &mut text, proof)?;
    Text::from_str(alloc, text.as_str())
}

/// The text of a tree that also has kept facts as leaves, `lN`.
pub fn shared_text(
    alloc: Global,
    proof: &Proof<SharedLeaf<u32>, Weaken, Join>,
) -> Result<Text, AllocError>
    ensures { IfOk result (λ t. t ≡ tree_bytes shared_leaf proof.now) }
{
    let mut text = String::new(alloc);
    push_shared_tree(alloc, &mut text, proof)?;
    Text::from_str(alloc, text.as_str())
}
