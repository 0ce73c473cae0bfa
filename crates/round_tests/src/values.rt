//! Values of polynomials in a category, and the laws that give certificates their meaning.
ghost use Rattle.std.specs.Prelude.{◌≡◌, pos, negsuc, [], ◌∷◌};
ghost use Rattle.definitions.specs.Category.{IsArrow};
ghost use Rattle.definitions.specs.Poly.{SamePolynomial};
ghost use Rattle.matrix_models.specs.Matrix.{IsModulus};
ghost use Rattle.matrix_models.specs.Matrices.{matrices};
ghost use Rattle.quiver.specs.Declarations.{quiver_of};

use crate::comparing::equal;
use category_laws::{Category, Opposite, Pair, Parity};
use lists::Listing;
use matrix_models::{Matrices, Matrix};
use nc_polynomial::Poly;
use quiver::{Quiver, Sig};
use representations::{Representation, sound, star_sound, typed_rows_suffice, value_of};
use std::alloc::Global;
use std::process::Abort;
use word_core::{Letter, Object, Word};

#[test]
fn each_law_is_called_at_each_category() {
    sound(&Parity);
    sound(&Opposite(Parity));
    sound(&Pair(Parity, Parity));
    star_sound(&Parity);
    star_sound(&Opposite(Parity));
    star_sound(&Pair(Opposite(Parity), Parity));
    typed_rows_suffice();
}

// One object with the letter 0 as its identity, and the maps a and b with the letters 1 and 2, their own adjoints.
fn loops(rt: &impl Abort, alloc: Global) -> Quiver
    ensures { quiver_of result ≡ record { objects = 1; ends = (0, 0) ∷ (0, 0) ∷ (0, 0) ∷ []; stars = 0 ∷ 1 ∷ 2 ∷ [] } }
{
    let mut quiver = Quiver::new(alloc).expect(rt, "memory");
    quiver.add_object("U").expect(rt, "U");
    quiver
        .add_map("a", Object(0), Object(0), true)
        .expect(rt, "a");
    quiver
        .add_map("b", Object(0), Object(0), true)
        .expect(rt, "b");
    quiver
}

// 2 a b - a
fn difference(rt: &impl Abort, alloc: Global) -> Poly
    ensures { SamePolynomial result.terms ((pos 2, 1 ∷ 2 ∷ []) ∷ (negsuc 0, 1 ∷ []) ∷ []) }
{
    let mut product = Word::new(alloc);
    product.push(Letter(1)).expect(rt, "memory");
    product.push(Letter(2)).expect(rt, "memory");
    let mut single = Word::new(alloc);
    single.push(Letter(1)).expect(rt, "memory");
    Poly::from_terms(alloc, &[(2, product), (-1, single)]).expect(rt, "a polynomial")
}

// The list of three items.
fn three<T: Drop>(rt: &impl Abort, alloc: Global, x: T, y: T, z: T) -> Listing<T>
    ensures { result ≡ x ∷ y ∷ z ∷ [] }
{
    let mut items = Listing::new(alloc);
    items.push(x).expect(rt, "memory");
    items.push(y).expect(rt, "memory");
    items.push(z).expect(rt, "memory");
    items
}

// The object with its identity and these arrows from it to itself.
fn loops_at<C: Category>(
    rt: &impl Abort,
    alloc: Global,
    category: &C,
    object: C::Object,
    a: C::Arrow,
    b: C::Arrow,
) -> Representation<C>
    requires object_in { (C.structure category.now).is_object object }
    ensures objects { result.objects ≡ object ∷ [] }
    ensures arrows { result.arrows ≡ (C.structure category.now).identity object ∷ a ∷ b ∷ [] }
{
    let identity = category.identity(alloc, &object).expect(rt, "memory");
    let arrows = three(rt, alloc, identity, a, b);
    let mut objects = Listing::new(alloc);
    objects.push(object).expect(rt, "memory");
    Representation { objects, arrows }
}

// The value of 2 a b - a where a and b are these arrows from the object to itself.
fn value_at_loops<C: Category>(
    rt: &impl Abort,
    alloc: Global,
    category: &C,
    object: C::Object,
    a: C::Arrow,
    b: C::Arrow,
) -> C::Arrow
    requires object_in { (C.structure category.now).is_object object }
    requires a_in { IsArrow (C.structure category.now) object object a }
    requires b_in { IsArrow (C.structure category.now) object object b }
    ensures { (C.structure category.now).is_arrow result }
{
    let sig = Sig {
        source: Object(0),
        target: Object(0),
    };
    let representation = loops_at(rt, alloc, category, object, a, b);
    let quiver = loops(rt, alloc);
    let poly = difference(rt, alloc);
    value_of(alloc, category, &quiver, &representation, &poly, sig).expect(rt, "a value")
}

// The 1 by 1 matrix of this number.
fn number(rt: &impl Abort, alloc: Global, modulus: u32, entry: u32) -> Matrix
    requires { IsModulus modulus }
    ensures { IsArrow (matrices modulus) 1 1 result }
{
    Matrix::new(alloc, modulus, 1, 1, &[entry]).expect(rt, "a matrix")
}

// With a = 2 and b = 3 the value of 2 a b - a is 10.
fn modulo_5(rt: &impl Abort, alloc: Global) -> u32 {
    let category = Matrices { modulus: 5 };
    let (a, b) = (number(rt, alloc, 5, 2), number(rt, alloc, 5, 3));
    value_at_loops(rt, alloc, &category, 1, a, b).entry(0, 0)
}

fn modulo_5_turned(rt: &impl Abort, alloc: Global) -> u32 {
    let category = Opposite(Matrices { modulus: 5 });
    let (a, b) = (number(rt, alloc, 5, 2), number(rt, alloc, 5, 3));
    value_at_loops(rt, alloc, &category, 1, a, b).entry(0, 0)
}

fn modulo_5_and_7(rt: &impl Abort, alloc: Global) -> (u32, u32) {
    let category = Pair(Matrices { modulus: 5 }, Matrices { modulus: 7 });
    let a = (number(rt, alloc, 5, 2), number(rt, alloc, 7, 2));
    let b = (number(rt, alloc, 5, 3), number(rt, alloc, 7, 3));
    let value = value_at_loops(rt, alloc, &category, (1, 1), a, b);
    (value.0.entry(0, 0), value.1.entry(0, 0))
}

#[test]
fn values_are_sums_of_multiples_of_composites(rt: HostRuntime) {
    equal(&rt, &modulo_5(&rt, rt.alloc()), &0, "modulo 5");
    equal(&rt, &modulo_5_turned(&rt, rt.alloc()), &0, "turned round");
    let both = modulo_5_and_7(&rt, rt.alloc());
    equal(&rt, &both, &(0, 3), "modulo 5 and 7 in a pair");
}
