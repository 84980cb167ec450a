//! Generated expressions. Most are well typed over two ints; on other rows they may not be.

use crate::tables::int;
use castor_alg::{Expr, Op};
use castor_plain::Random;
use castor_val::{Memory, Value};
use sqlite_items::{Boxed, Items};
use std::alloc::Global;

/// A column, a column of a scope, a parameter or an int.
pub fn leaf(random: &mut Random) -> Expr {
    match random.below(12) {
        0..=3 => Expr::Col(random.below(2)),
        4 => Expr::Col(random.below(4)),
        5..=6 => Expr::Scope(random.below(2), random.below(2)),
        7 => Expr::Scope(random.below(3), random.below(3)),
        8 => Expr::Param(0),
        9 => Expr::Param(random.below(3)),
        _ => Expr::Lit(Value::Int(int(random))),
    }
}

fn arithmetic(random: &mut Random) -> Op {
    match random.below(5) {
        0 => Op::Add,
        1 => Op::Sub,
        2 => Op::Mul,
        3 => Op::Div,
        _ => Op::Rem,
    }
}

fn comparison(random: &mut Random) -> Op {
    match random.below(6) {
        0 => Op::Eq,
        1 => Op::Ne,
        2 => Op::Lt,
        3 => Op::Le,
        4 => Op::Gt,
        _ => Op::Ge,
    }
}

fn connective(random: &mut Random) -> Op {
    match random.below(2) {
        0 => Op::Or,
        _ => Op::And,
    }
}

fn binary(alloc: Global, op: Op, a: Expr, b: Expr) -> Result<Expr, Memory> {
    let a = Boxed::new(alloc, a)?;
    let b = Boxed::new(alloc, b)?;
    Ok(Expr::Bin(op, a, b))
}

fn choice(alloc: Global, condition: Expr, a: Expr, b: Expr) -> Result<Expr, Memory> {
    let condition = Boxed::new(alloc, condition)?;
    let a = Boxed::new(alloc, a)?;
    let b = Boxed::new(alloc, b)?;
    Ok(Expr::If(condition, a, b))
}

// Whether one leaf stands to another as an operator says.
fn test(alloc: Global, random: &mut Random) -> Result<Expr, Memory> {
    let op = comparison(random);
    let a = leaf(random);
    let b = leaf(random);
    binary(alloc, op, a, b)
}

// The number in an operation with a leaf, or chosen beside one.
fn wider(alloc: Global, random: &mut Random, e: Expr) -> Result<Expr, Memory> {
    let other = leaf(random);
    match random.below(4) {
        0 => {
            let condition = test(alloc, random)?;
            choice(alloc, condition, e, other)
        }
        1 => binary(alloc, arithmetic(random), other, e),
        _ => binary(alloc, arithmetic(random), e, other),
    }
}

/// A number, which takes at most three operations.
pub fn number(alloc: Global, random: &mut Random) -> Result<Expr, Memory> {
    let mut e = leaf(random);
    for _ in 0..random.below(4) {
        e = wider(alloc, random, e)?;
    }
    Ok(e)
}

// The condition turned around, or connected with a test.
fn longer(alloc: Global, random: &mut Random, e: Expr) -> Result<Expr, Memory> {
    if random.below(3) == 0 {
        return Ok(Expr::Not(Boxed::new(alloc, e)?));
    }
    let other = test(alloc, random)?;
    binary(alloc, connective(random), e, other)
}

/// A comparison of numbers, connected with at most two tests.
pub fn condition(alloc: Global, random: &mut Random) -> Result<Expr, Memory> {
    let a = number(alloc, random)?;
    let b = leaf(random);
    let mut e = binary(alloc, comparison(random), a, b)?;
    for _ in 0..random.below(3) {
        e = longer(alloc, random, e)?;
    }
    Ok(e)
}

/// One to three numbers.
pub fn numbers(alloc: Global, random: &mut Random) -> Result<Items<Expr>, Memory> {
    let mut es = Items::new(alloc);
    for _ in 0..random.below(3) + 1 {
        let e = number(alloc, random)?;
        es.push(e)?;
    }
    Ok(es)
}
