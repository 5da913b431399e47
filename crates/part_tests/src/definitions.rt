// Definitions of terms that no text is.
ghost use Rattle.std.specs.Prelude.{IfOk};
ghost use Rattle.formula.specs.Adding.{IsBodyIn};
ghost use Rattle.formula.specs.Pool.{Grows, IsIn};

use edge_io::{Keys, List, NoMemory};
use formula::{Args, Body, BuiltIn, DefFault, Definitions, Func, TermId, TermPool, Word};
use std::alloc::Global;
use std::test::Fail;

fn full(_: NoMemory) -> Fail {
    "no memory".into()
}

// The word of these bytes.
fn word(bytes: &[u8]) -> Result<Word, Fail> {
    match Word::new(bytes) {
        Some(word) => Ok(word),
        None => Err("no word".into()),
    }
}

// The words of one letter each.
fn letter_words(alloc: Global, letters: &[u8]) -> Result<List<Word>, Fail> {
    let mut words = Vec::new(alloc);
    for letter in letters {
        words.push(word(&[*letter])?)?;
    }
    Ok(List::from_vec(words))
}

// What is answered where a definition of that body is added, whose parameters have one letter each.
fn put(
    alloc: Global,
    pool: &TermPool,
    definitions: &mut Definitions,
    letters: &[u8],
    body: Body,
) -> Result<Result<(), DefFault>, Fail>
    requires { IsBodyIn pool.now body }
{
    let params = letter_words(alloc, letters)?;
    Ok(definitions.add(pool, word(b"G")?, params, body))
}

// The use of the definition of number k with one argument.
fn used(alloc: Global, pool: &mut TermPool, k: usize, argument: TermId) -> Result<TermId, Fail>
    requires { IsIn pool.old argument }
    ensures is_in { IfOk result (λ id. IsIn pool.new id) }
    ensures grows { Grows pool.old pool.new }
{
    let Ok(args) = Args::new(alloc, &[argument]) else {
        return Err("no memory".into());
    };
    let Ok(id) = pool.apply(Func::Defined(k), args) else {
        return Err("no memory".into());
    };
    Ok(id)
}

// Each term is the sum of the one before with itself.
fn doubled(pool: &mut TermPool, first: TermId, times: u32) -> Result<TermId, Fail>
    requires { IsIn pool.old first }
    ensures is_in { IfOk result (λ id. IsIn pool.new id) }
{
    let mut id = first;
    for _ in 0..times {
        let Ok(sum) = pool.binary(BuiltIn::Plus, id, id) else {
            return Err("no memory".into());
        };
        id = sum;
    }
    Ok(id)
}

#[test]
fn terms_that_were_made_are_judged(rt: HostRuntime) -> Result<(), Fail> {
    let mut pool = TermPool::new(rt.alloc(), Keys::new(1, 2));
    let mut definitions = Definitions::new(rt.alloc(), Keys::new(1, 2));
    let k = pool.symbol(word(b"K")?).map_err(full)?;
    let none = used(rt.alloc(), &mut pool, 0, k)?;
    let own = used(rt.alloc(), &mut pool, 1, k)?;
    let later = used(rt.alloc(), &mut pool, 2, k)?;
    let cases = [
        (
            b"K".as_slice(),
            Body::Plain(none),
            Err(DefFault::UnknownFunction),
        ),
        (b"K", Body::Plain(later), Err(DefFault::UnknownFunction)),
        (
            b"K",
            Body::Counting(own, later),
            Err(DefFault::UnknownFunction),
        ),
        (b"K", Body::Plain(own), Err(DefFault::BadRecursion)),
        (b"KA", Body::Plain(own), Err(DefFault::BadCount)),
        (b"KA", Body::Counting(k, own), Err(DefFault::BadCount)),
        (b"", Body::Counting(k, own), Err(DefFault::BadCount)),
    ];
    for (letters, body, answer) in cases.iter() {
        let got = put(rt.alloc(), &pool, &mut definitions, letters, *body)?;
        assert!(rt; got == *answer);
    }
    let shared = doubled(&mut pool, k, 500)?;
    let got = put(
        rt.alloc(),
        &pool,
        &mut definitions,
        b"K",
        Body::Plain(shared),
    )?;
    assert!(rt; got == Ok(()));
    assert_eq!(rt; definitions.count(), 1);
    assert_eq!(rt; definitions.get(1).body, Body::Plain(shared));
    Ok(())
}
