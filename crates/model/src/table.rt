//! The table of operations: what each asks of its output and its inputs, and what it computes.
ghost use Rattle.std.specs.Prelude.{◌≡◌, true};
ghost use Rattle.model.specs.declared.shape.Signature.{Signature as Known};
ghost use Rattle.model.specs.Fault.{plan_in};
ghost use Rattle.model.specs.Lent.{operation_lent};
ghost use Rattle.model.specs.Object.{transposed_signature};
ghost use Rattle.model.specs.Table.{asks_nothing, filled_by, is_offered, transposed_if};
ghost use Rattle.model.specs.Table.{are_factors, inner_size, offers_one, offers_two, plan_of_fill, plan_of_one};
ghost use Rattle.model.specs.Table.{plan_of_two, product_shape};

use crate::call::{Desc, Form, OneInput, Plan, Region, TwoInputs};
use crate::found::Lent;
use crate::shape::{Shape, Signature};
use algebra::{Domain, compatible};

impl Form {
    /// Whether factors are of the kinds that it says.
    pub const fn are_factors(self, a: Shape, b: Shape) -> bool
        ensures { result ≡ are_factors self a b }
    {
        match self {
            Form::MatrixMatrix => a.is_matrix() && b.is_matrix(),
            Form::MatrixVector => a.is_matrix() && !b.is_matrix(),
            Form::VectorMatrix => !a.is_matrix() && b.is_matrix(),
        }
    }

    /// The number of products that are summed at most, with a first factor of a shape.
    pub const fn inner_size(self, a: Shape) -> u64
        ensures { result ≡ inner_size self a }
    {
        match self {
            Form::MatrixMatrix | Form::MatrixVector => a.cols(),
            Form::VectorMatrix => a.rows(),
        }
    }

    /// The shape of the product.
    pub const fn product_shape(self, a: Shape, b: Shape) -> Shape
        ensures { result ≡ product_shape self a b }
    {
        match self {
            Form::MatrixMatrix => Shape::Two(a.rows(), b.cols()),
            Form::MatrixVector => Shape::One(a.rows()),
            Form::VectorMatrix => Shape::One(b.cols()),
        }
    }
}

impl Plan {
    /// The plan of what asks nothing, and computes what has a domain and a shape.
    const fn asks_nothing(of: Signature) -> Plan
        ensures { result ≡ asks_nothing of }
    {
        Plan {
            kinds: true,
            compatible: true,
            fits: true,
            inside: true,
            values: true,
            shape: of.shape,
            domain: of.domain,
        }
    }
}

impl Region {
    /// What the table says of a value that is put at its positions in an output.
    pub fn plan_of_fill(&self, c: Signature, value: i128) -> Plan
        ensures { result ≡ plan_of_fill c value self.now }
    {
        Plan {
            kinds: self.is_region_of(c.shape),
            compatible: c.domain.is_built_in(),
            inside: self.lies_inside(c.shape),
            values: c.domain.word_of(value).is_some(),
            ..Plan::asks_nothing(c)
        }
    }

    /// What the table says of an input that is put at its positions in an output.
    fn plan_of_assign(&self, c: Signature, a: Signature) -> Plan
        ensures { result ≡ plan_of_one c (OneInput.Assign self.now) a }
    {
        Plan {
            kinds: self.is_region_of(a.shape) && self.is_region_of(c.shape),
            fits: a.shape.is_same(self.shape_in(c.shape)),
            inside: self.lies_inside(c.shape),
            values: self.has_no_repeat(),
            shape: c.shape,
            ..Plan::asks_nothing(a)
        }
    }
}

impl OneInput {
    /// Whether there is the operator that it names, if it names one.
    pub fn is_offered(&self) -> bool
        ensures { result ≡ offers_one self.now }
    {
        match self {
            OneInput::Apply(function) => function.is_offered(),
            OneInput::Select { op, .. } => op.is_offered(),
            OneInput::ReduceRows(monoid) => monoid.is_offered(),
            OneInput::Transpose | OneInput::Extract(_) | OneInput::Assign(_) => true,
        }
    }

    /// The domain of what it computes.
    pub fn answer(&self, a: Signature) -> Domain
        ensures { (c : Known) → (plan_of_one c self.now a).domain ≡ result }
    {
        match self {
            OneInput::Apply(function) => function.answer(),
            OneInput::ReduceRows(monoid) => monoid.domain,
            OneInput::Select { .. }
            | OneInput::Transpose
            | OneInput::Extract(_)
            | OneInput::Assign(_) => a.domain,
        }
    }

    /// What the table says of the output and the input.
    pub fn plan(&self, c: Signature, a: Signature) -> Plan
        ensures { result ≡ plan_of_one c self.now a }
    {
        let Signature { shape, domain } = a;
        match self {
            OneInput::Apply(function) => Plan {
                compatible: function.takes(domain),
                values: function.has_value(),
                domain: function.answer(),
                ..Plan::asks_nothing(a)
            },
            OneInput::Select { op, scalar } => Plan {
                compatible: op.takes(domain),
                values: op.scalar().word_of(*scalar).is_some(),
                ..Plan::asks_nothing(a)
            },
            OneInput::ReduceRows(monoid) => Plan {
                kinds: shape.is_matrix(),
                compatible: compatible(domain, monoid.domain),
                shape: Shape::One(shape.rows()),
                domain: monoid.domain,
                ..Plan::asks_nothing(a)
            },
            OneInput::Transpose => Plan {
                kinds: shape.is_matrix(),
                shape: shape.transposed(),
                ..Plan::asks_nothing(a)
            },
            OneInput::Extract(region) => Plan {
                kinds: region.is_region_of(shape),
                inside: region.lies_inside(shape),
                shape: region.shape_in(shape),
                ..Plan::asks_nothing(a)
            },
            OneInput::Assign(region) => region.plan_of_assign(c, a),
        }
    }
}

impl TwoInputs {
    /// Whether there is the operator that it names.
    pub const fn is_offered(self) -> bool
        ensures { result ≡ offers_two self }
    {
        match self {
            TwoInputs::Multiply { semiring, .. } => semiring.is_offered(),
            TwoInputs::Combine { op, .. } => op.is_offered(),
        }
    }

    /// The domain of what it computes.
    pub const fn answer(self) -> Domain
        ensures { (a b : Known) → (plan_of_two self a b).domain ≡ result }
    {
        match self {
            TwoInputs::Multiply { semiring, .. } => semiring.answer(),
            TwoInputs::Combine { op, .. } => op.answer(),
        }
    }

    /// What the table says of the inputs.
    pub fn plan(self, a: Signature, b: Signature) -> Plan
        ensures { result ≡ plan_of_two self a b }
    {
        match self {
            TwoInputs::Multiply { form, semiring } => Plan {
                kinds: form.are_factors(a.shape, b.shape),
                compatible: compatible(a.domain, semiring.domain)
                    && compatible(b.domain, semiring.domain),
                fits: form.inner_size(a.shape) == b.shape.rows(),
                shape: form.product_shape(a.shape, b.shape),
                domain: semiring.answer(),
                ..Plan::asks_nothing(a)
            },
            TwoInputs::Combine { op, .. } => Plan {
                kinds: a.shape.is_like(b.shape),
                compatible: compatible(a.domain, op.domain) && compatible(b.domain, op.domain),
                fits: a.shape.is_same(b.shape),
                domain: op.answer(),
                ..Plan::asks_nothing(a)
            },
        }
    }
}

impl Lent<'_, Signature> {
    /// Whether the operators that it names are offered.
    pub fn is_offered(self) -> bool
        ensures { result ≡ is_offered (operation_lent self.entry) }
    {
        match self {
            Lent::Fill { .. } => true,
            Lent::OfOne { computes, .. } => computes.is_offered(),
            Lent::OfTwo { computes, .. } => computes.is_offered(),
        }
    }

    /// What the table says of an output and the inputs, transposed as a descriptor says.
    pub fn plan(self, c: Signature, desc: Desc) -> Plan
        ensures { result ≡ plan_in c desc (operation_lent self.entry) }
    {
        match self {
            Lent::Fill { value, region } => region.plan_of_fill(c, value),
            Lent::OfOne { computes, a } => {
                computes.plan(c, a.transposed_if(computes.is_transposed(desc)))
            }
            Lent::OfTwo { computes, a, b } => {
                let a = a.transposed_if(desc.transpose_first);
                let b = b.transposed_if(desc.transpose_second);
                computes.plan(a, b)
            }
        }
    }

    /// How many positions are filled with one value, of an output of a shape.
    pub fn filled(self, shape: Shape) -> u128
        ensures { result ≡ filled_by shape (operation_lent self.entry) }
    {
        match self {
            Lent::Fill { region, .. } => region.positions_in(shape),
            Lent::OfOne { .. } | Lent::OfTwo { .. } => 0,
        }
    }
}

impl Signature {
    /// Itself, or that of the transpose where a flag asks for it.
    pub fn transposed_if(self, flag: bool) -> Signature
        ensures { result ≡ transposed_if transposed_signature flag self }
    {
        if !flag {
            return self;
        }
        Signature {
            domain: self.domain,
            shape: self.shape.transposed(),
        }
    }
}
