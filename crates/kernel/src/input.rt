//! Objects that are lent to operations.
ghost use Rattle.std.specs.Prelude.{◌≡◌};
ghost use Rattle.model.specs.Object.{IsObject, cols_of, rows_of};
ghost use Rattle.store.specs.Stored.{content_of};

use calls::Signature;
use store::Store;

/// An object that is lent to an operation: what is known of it, and its store.
#[derive(Clone, Copy)]
pub(crate) struct Input<'a> {
    pub signature: Signature,
    pub store: &'a Store,
    pub ghost rows: { store.now.rows ≡ rows_of signature.shape },
    pub ghost cols: { store.now.cols ≡ cols_of signature.shape },
    pub ghost is_object: { IsObject (record {
      domain = signature.domain;
      shape = signature.shape;
      content = content_of store.now;
    }) },
}
