//! The calls, generic in how they name objects.

use crate::{IndexList, Place, Shape, TupleList};
use algebra::{Domain, FunctionName, IndexName, MonoidName, OpName, SemiringName};

/// The flags of a descriptor (`GrB_Descriptor`).
#[derive(Clone, Copy)]
pub struct Desc {
    /// `GrB_REPLACE`: what the output had outside the mask goes.
    pub replace: bool,
    /// `GrB_STRUCTURE`: the mask is the positions that it stores, whatever their values.
    pub structure: bool,
    /// `GrB_COMP`: the positions outside the mask are meant.
    pub complement: bool,
    /// `GrB_INP0` is `GrB_TRAN`: the first input is transposed.
    pub transpose_first: bool,
    /// `GrB_INP1` is `GrB_TRAN`: the second input is transposed.
    pub transpose_second: bool,
}

/// Where an operation's values go: the output, the mask and the accumulator, where there are any, and
/// the descriptor.
#[derive(Clone, Copy)]
pub struct Out<K> {
    /// The output, whose old content an accumulator and a write-back combine with.
    pub c: K,
    /// The object that says which positions are written; none: all are.
    pub mask: Option<K>,
    /// The operator that combines an old value and a new one; none: the new one replaces the old.
    pub accum: Option<OpName>,
    pub desc: Desc,
}

/// What the factors of a product are.
#[derive(Clone, Copy)]
pub enum Form {
    /// Two matrices (`GrB_mxm`).
    MatrixMatrix,
    /// A matrix and a vector as a column (`GrB_mxv`).
    MatrixVector,
    /// A vector as a row and a matrix (`GrB_vxm`).
    VectorMatrix,
}

/// The positions at which two inputs are combined.
#[derive(Clone, Copy)]
pub enum Positions {
    /// Those that either has (`GrB_eWiseAdd`).
    Union,
    /// Those that both have (`GrB_eWiseMult`).
    Intersection,
}

/// The rows and the columns that a call names by lists: of a vector, or of a matrix.
#[derive(Drop)]
pub enum Region {
    /// The indices of a vector.
    One(IndexList),
    /// The rows and the columns of a matrix.
    Two(IndexList, IndexList),
}

/// What an operation computes of one input.
#[derive(Drop)]
pub enum OneInput {
    /// A function of each entry (`GrB_apply`).
    Apply(FunctionName),
    /// The entries for which an index operator's answer is true (`GrB_select`).
    Select { op: IndexName, scalar: i128 },
    /// The sum of each row (`GrB_reduce` to a vector).
    ReduceRows(MonoidName),
    /// The transpose (`GrB_transpose`).
    Transpose,
    /// The entries at the positions of a region, in the order of its lists (`GrB_extract`).
    Extract(Region),
    /// The entries, put at the positions of a region of the output (`GrB_assign`).
    Assign(Region),
}

impl OneInput {
    ghost use Rattle.std.specs.Prelude.{◌≡◌};
    ghost use Rattle.model.specs.Table.{transposes_one};

    /// Whether a descriptor's flags transpose the input; where the first operand is a plain value, the input is
    /// the second.
    pub fn is_transposed(&self, desc: Desc) -> bool
        ensures { result ≡ transposes_one self.now desc }
    {
        match self {
            OneInput::Apply(FunctionName::First { .. }) => desc.transpose_second,
            _ => desc.transpose_first,
        }
    }
}

/// What an operation computes of two inputs.
#[derive(Clone, Copy)]
pub enum TwoInputs {
    /// The product of two factors over a semiring.
    Multiply { form: Form, semiring: SemiringName },
    /// An operator's answers, position by position.
    Combine { positions: Positions, op: OpName },
}

/// An operation on its inputs. How many they are is all that looks up, checks and renames objects, so
/// that these have a case for each number and not for each operation.
#[derive(Drop)]
pub enum Operation<K> {
    /// A value at each position of a region of the output (`GrB_assign` of a constant).
    Fill { value: i128, region: Region },
    /// What is computed of one input.
    OfOne { computes: OneInput, a: K },
    /// What is computed of two inputs.
    OfTwo { computes: TwoInputs, a: K, b: K },
}

/// What a wait asks for (`GrB_WaitMode`).
#[derive(Clone, Copy)]
pub enum WaitMode {
    /// `GrB_COMPLETE`: the value of the object is there, and all that it needs.
    Complete,
    /// `GrB_MATERIALIZE`: that, and what reads the object later rests on its value alone.
    Materialize,
}

/// What is done to one object, or asked of it.
#[derive(Drop)]
pub enum Act {
    /// Frees the object (`GrB_free`).
    Free,
    /// Removes all entries (`GrB_Matrix_clear`, `GrB_Vector_clear`).
    Clear,
    /// Gives the object another shape, in which the entries stay that fit it (`GrB_Matrix_resize`,
    /// `GrB_Vector_resize`).
    Resize(Shape),
    /// Puts values at positions of an object without entries; those of one position are combined in the
    /// order of the list (`GrB_Matrix_build`, `GrB_Vector_build`).
    Build {
        dup: Option<OpName>,
        tuples: TupleList,
    },
    /// Sets an entry (`GrB_Matrix_setElement`, `GrB_Vector_setElement`).
    Set {
        place: Place,
        value: i128,
    },
    /// Removes an entry, where there is one (`GrB_Matrix_removeElement`,
    /// `GrB_Vector_removeElement`).
    Remove(Place),
    /// Asks for the value of an entry (`GrB_Matrix_extractElement`, `GrB_Vector_extractElement`).
    Get(Place),
    /// Asks for the number of entries (`GrB_Matrix_nvals`, `GrB_Vector_nvals`).
    Nvals,
    /// Asks for the object's canonical text.
    Print,
    /// Asks for the sum of all values (`GrB_reduce` to a scalar).
    Reduce(MonoidName),
    /// Asks for no more than that the value is there (`GrB_Matrix_wait`, `GrB_Vector_wait`).
    Wait(WaitMode),
}

/// A call, by the objects that it names. `K` is how it names objects, and `N` how it names one that it
/// makes: in a script both are words; in a session objects have numbers, and a new one has none yet.
/// All that looks up, checks and renames objects has a case for each of these four.
#[derive(Drop)]
pub enum Call<K, N> {
    /// Makes an object without entries (`GrB_Matrix_new`, `GrB_Vector_new`).
    Create {
        name: N,
        domain: Domain,
        shape: Shape,
    },
    /// Makes an object with the domain, the shape and the entries of another (`GrB_Matrix_dup`,
    /// `GrB_Vector_dup`).
    Dup {
        name: N,
        object: K,
    },
    /// Does something to one object, or asks something of it.
    On {
        object: K,
        act: Act,
    },
    /// Computes an operation, and writes it into its output.
    Operate {
        out: Out<K>,
        operation: Operation<K>,
    },
}

/// What the table of operations says of one operation on its inputs: whether they are of the right
/// kinds, whether their domains and their shapes fit, whether its indices are inside the shapes that
/// they are of, whether its plain values are of their domains and no index is repeated that may stand
/// once, and the shape and the domain of what it computes.
#[derive(Clone, Copy)]
pub struct Plan {
    pub kinds: bool,
    pub compatible: bool,
    pub fits: bool,
    pub inside: bool,
    pub values: bool,
    pub shape: Shape,
    pub domain: Domain,
}
