// Bit reversal.
#![tactic(auto)]

ghost use Rattle.std.specs.Prelude.{◌≡◌, ◌*◌, ◌^◌, ◌≤◌, length};
ghost use Rattle.answer.specs.Lists.{tabulate};
ghost use Rattle.fourier.specs.Reverse.{rev};
ghost use Rattle.stages.specs.Laws.{held};

use stages::Places;

// "Bit reversal of a lent buffer" of 2^n places: place p receives what stood at rev(p), each pair of places exchanged once. By place, since a
// place is exchanged with one anywhere in the buffer.
pub fn reverse<P: Places>(buf: &mut [P::Number], n: usize)
    requires { (length buf.old ≡ P.width * 2 ^ n) × (n ≤ 12) }
    ensures after { P.values buf.new ≡ tabulate (2 ^ n) (λ p. held P.zero (P.values buf.old) (rev n p)) }
    ensures len { length buf.new ≡ length buf.old }
{
    for i in 0..1 << n {
        let j = reversed(n, i);
        if i < j {
            let a = P::at(buf, i);
            let b = P::at(buf, j);
            P::put(buf, i, b);
            P::put(buf, j, a);
        }
    }
}

// "rev(j) is j with its n bits reversed." Bit by bit: `reverse_bits` turns all 64, and for n = 0 nothing shifts them back.
pub fn reversed(n: usize, j: usize) -> usize
    requires { n ≤ 12 }
    ensures { result ≡ rev n j }
{
    let mut rest = j;
    let mut result = 0;
    for past in 0..n {
        result = result + result + rest % 2;
        rest = rest / 2;
    }
    result
}
