//! The limits on qualities that are set, from the products of a network.

ghost use Rattle.std.specs.Prelude.{◌≡◌, ◌≤◌, ◌++◌, ℕ, None, map, length, get_or, IfOk, All};
ghost use Rattle.pool_model.specs.Limits as model;
ghost use Rattle.blend_network.specs.Limits.{limits_in, product_limit, kept_limits};
ghost use Rattle.blend_network.specs.Views.{shown_limit, shown_product};

use super::Product;
use crate::limits::{Limit, LimitSide};
use std::alloc::{AllocError, Global};

/// The limits that are set, by product and then by quality.
#[derive(Drop)]
pub(super) struct Limits {
    pub(super) most: Vec<Limit>,
    pub(super) least: Vec<Limit>,
}

impl Limits {
    pub(super) fn of(&self, side: LimitSide) -> &[Limit]
        ensures { result.now ≡ kept_limits self.now side }
    {
        match side {
            LimitSide::Most => self.most.as_slice(),
            LimitSide::Least => self.least.as_slice(),
        }
    }
}

impl Product {
    /// The limits of the kind, by quality.
    fn limits(&self, side: LimitSide) -> &[Option<i64>]
        ensures { result.now ≡ limits_in (shown_product self.now) side }
    {
        match side {
            LimitSide::Most => self.most.as_slice(),
            LimitSide::Least => self.least.as_slice(),
        }
    }
}

/// The limits of the kind that are set, by product and then by quality.
pub(super) fn limits_from(
    alloc: Global,
    products: &[Product],
    side: LimitSide,
) -> Result<Vec<Limit>, AllocError>
    requires few { length products.now ≤ 64 }
    requires narrow { All (λ p. length (limits_in (shown_product p) side) ≤ 8) products.now }
    ensures { (qualities : ℕ) → All (λ p. length (limits_in (shown_product p) side) ≡ qualities) products.now
        → IfOk result (λ v. map shown_limit v.items ≡ model.limits (product_limit (map shown_product products.now) side) (length products.now) qualities) }
{
    let mut limits = Vec::new(alloc);
    for product in 0..products.len() {
        add_limits(&mut limits, product as u32, products[product].limits(side))?;
    }
    Ok(limits)
}

/// Adds the limits of a product that are set.
fn add_limits(
    limits: &mut Vec<Limit>,
    product: u32,
    values: &[Option<i64>],
) -> Result<(), AllocError>
    requires { length values.now ≤ 8 }
    ensures { IfOk result (λ _. map shown_limit limits.new.items ≡ map shown_limit limits.old.items ++ model.product_limits (λ _ k. get_or values.now k None) (length values.now) product) }
{
    for quality in 0..values.len() {
        if let Some(limit) = values[quality] {
            limits.push(Limit {
                product,
                quality: quality as u32,
                limit,
            })?;
        }
    }
    Ok(())
}
