//! Operations that take over what their output had.
ghost use Rattle.std.specs.Prelude.{◌≡◌, ◌<◌, ℕ, IfOk, IfSome, None};
ghost use Rattle.std.specs.Option.{option_map};
ghost use Rattle.algebra.specs.OperatorNames.{op_named};
ghost use Rattle.calls.specs.Recipes.{known_by_role, meaning, operation_with, out_with};
ghost use Rattle.calls.specs.Straight.{IsStraight};
ghost use Rattle.calls.specs.declared.role.Role.{Role as AnyRole};
ghost use Rattle.calls.specs.declared.role.Role.TheVariants.{Mask as MaskRole};
ghost use Rattle.kernel.specs.Bitmaps.{HasAll};
ghost use Rattle.kernel.specs.Blocks.{HasShape};
ghost use Rattle.kernel.specs.Overs.{IsUnwritten, beside};
ghost use Rattle.kernel.specs.Takes.{Takes, map_in};
ghost use Rattle.masks.specs.Masks.{lets_through};
ghost use Rattle.model.specs.Object.{Content, cols_of, rows_of};
ghost use Rattle.model.specs.WriteBack.{mask_set};
ghost use Rattle.store.specs.Stored.{content_of};

use crate::bitmaps::task_bitmap;
use crate::computing::computed_rows;
use crate::output::mask_of;
use crate::piece::taken;
use algebra::BinaryOp;
use bitmap::Bitmap;
use calls::{Accepted, Roles};
use masks::{Mask, MaskTest, StoredMask, write_into};
use model::NoMemory;
use spgemm::VectorProducts;
use std::alloc::Global;
use store::{RowBlock, Store};

/// All rows of what an operation leaves, of the stores that take its roles and of what its output had, which is taken
/// over: where few entries are written, they are put into it. Where it goes along bitmaps, all is made anew, a product
/// with a vector by `products`.
pub fn computed_over<P: VectorProducts>(
    products: &P,
    alloc: Global,
    accepted: &Accepted,
    old: Store,
    stores: &Roles<&Store>,
) -> Result<Store, NoMemory>
    requires straight { IsStraight accepted.now.out.desc }
    requires inputs { (role : AnyRole) → Takes (known_by_role accepted.now.out accepted.now.operation role)
        (beside old stores.now role) }
    ensures rows { IfOk result (λ store. store.rows ≡ rows_of accepted.now.out.c.shape) }
    ensures cols { IfOk result (λ store. store.cols ≡ cols_of accepted.now.out.c.shape) }
    ensures content { IfOk result (λ store. (i j : ℕ) → content_of store i j
        ≡ meaning accepted.now.out accepted.now.operation (λ role. map_in (beside old stores.now role)) i j) }
{
    if let Some(bitmap) = bitmap_over(products, alloc, accepted, &old, stores)? {
        let mut store = Store::from_bitmap(bitmap);
        store.settle(alloc);
        return Ok(store);
    }
    let mut old = old;
    let t = unwritten_rows(alloc, accepted, &old, stores)?;
    let mask = mask_in(accepted, stores.mask);
    let accum = accumulator_in(accepted);
    write_into(alloc, &mut old, t, mask, accum, accepted.out.desc.replace)?;
    prove_eq!(old.rows(), accepted.out.c.shape.rows());
    Ok(old)
}

/// Rows of what is written back of an operation on the stores that take its roles, before that is done. What stands
/// outside the mask set doesn't count.
fn unwritten_rows(
    alloc: Global,
    accepted: &Accepted,
    old: &Store,
    stores: &Roles<&Store>,
) -> Result<RowBlock, NoMemory>
    requires straight { IsStraight accepted.now.out.desc }
    requires inputs { (role : AnyRole) → Takes (known_by_role accepted.now.out accepted.now.operation role)
        (beside old.now stores.now role) }
    ensures { IfOk result (IsUnwritten
        (out_with accepted.now.out (λ role. map_in (beside old.now stores.now role)))
        (operation_with accepted.now.operation (λ role. map_in (beside old.now stores.now role)))
        0 (rows_of accepted.now.out.c.shape)) }
{
    let shape = accepted.out.c.shape;
    let unread = Store::new(alloc, shape.rows(), shape.cols());
    let stores = Roles {
        old: Some(old),
        ..*stores
    };
    let task = taken(accepted, stores, &unread);
    let mask = mask_of(&task);
    computed_rows(alloc, &task, mask, 0..shape.rows())
}

/// All that an operation on the stores that take its roles leaves, where it goes along bitmaps.
fn bitmap_over<P: VectorProducts>(
    products: &P,
    alloc: Global,
    accepted: &Accepted,
    old: &Store,
    stores: &Roles<&Store>,
) -> Result<Option<Bitmap>, NoMemory>
    requires straight { IsStraight accepted.now.out.desc }
    requires inputs { (role : AnyRole) → Takes (known_by_role accepted.now.out accepted.now.operation role)
        (beside old.now stores.now role) }
    ensures { IfOk result (λ found. IfSome found
        (HasAll (rows_of accepted.now.out.c.shape) (cols_of accepted.now.out.c.shape)
        (meaning accepted.now.out accepted.now.operation (λ role. map_in (beside old.now stores.now role))))) }
{
    let shape = accepted.out.c.shape;
    let unread = Store::new(alloc, shape.rows(), shape.cols());
    let stores = Roles {
        old: Some(old),
        ..*stores
    };
    let task = taken(accepted, stores, &unread);
    task_bitmap(products, alloc, &task)
}

/// The positions that an accepted operation writes, by the store of its mask.
fn mask_in<'a>(accepted: &Accepted, mask: Option<&'a Store>) -> Mask<'a>
    requires { Takes accepted.now.out.mask (option_map (λ store. store.now) mask) }
    ensures set { (maps : AnyRole → Content) → maps MaskRole ≡ map_in (option_map (λ store. store.now) mask.entry)
        → (i j : ℕ) → mask_set (out_with accepted.now.out maps) i j ≡ lets_through result i j }
    ensures shape { HasShape (rows_of accepted.now.out.c.shape) (cols_of accepted.now.out.c.shape) result }
{
    let desc = accepted.out.desc;
    match mask {
        Some(store) => Mask::By(StoredMask {
            store,
            test: MaskTest {
                valued: !desc.structure,
                complement: desc.complement,
            },
        }),
        None if desc.complement => Mask::Nowhere,
        None => Mask::Everywhere,
    }
}

/// The operator that accumulates, where there is one.
fn accumulator_in(accepted: &Accepted) -> Option<BinaryOp>
    ensures { option_map op_named result ≡ accepted.now.out.accum }
{
    let op = accepted.out.accum?;
    match op.resolve() {
        Some(op) => Some(op),
        None => unreachable!(),
    }
}
