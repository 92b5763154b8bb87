//! What the text doesn't say in a clause: who is paid, and where shapes stand.

use run_picture::picture_of;
use run_text::read_run;
use std::test::Fail;
use svg_words::escape;

/// The guarantor is paid first, since it pays itself before the ledger's other payment.
const TEXT: &[u8] = b"1 0 deposit L 0 0 9 ok held 9
2 0 transfer L 0 2 ok paid 6
3 0 claim G J 0 0 ok paid 6
4 0 transfer L 0 1 ok paid 3
end entries 4 now 0
asset 0 deposited 9 held 0 paid 9
paid A 0 6
paid B 0 3
";

/// What the picture has: four entries share the width of 800 from 150 on, each at the middle of its part; a lane is 83
/// high, and its marks begin at 228; the people's lines stand 16 below the last lane, and 22 apart. The area is 150 high and
/// ends at 663: it is of 9, so 2 is 33 above its end, and 8 is 133 above.
const PIECES: [&str; 16] = [
    // Entries 1 and 2 in the lane of the ledger, and entry 3 in the guarantor's, one below.
    "cx=\"250\" cy=\"228\" r=\"7\"><title>1 0 deposit L 0 0 9 ok held 9<",
    "cx=\"450\" cy=\"228\" r=\"7\"><title>2 0 transfer L 0 2 ok paid 6<",
    "cx=\"650\" cy=\"311\" r=\"7\"><title>3 0 claim G J 0 0 ok paid 6<",
    // The ledger pays the guarantor, whose band begins at 320.
    "<rect class=\"open\" x=\"650\" y=\"320\"",
    "x2=\"450\" y2=\"320\"><title>2 0 transfer L 0 2 ok paid 6<",
    // The guarantor pays A, and the ledger B: up to 5 above their lines.
    "y1=\"443\" x2=\"996\" y2=\"443\"",
    "x2=\"650\" y2=\"438\"><title>3 0 claim G J 0 0 ok paid 6<",
    "y1=\"465\" x2=\"996\" y2=\"465\"",
    "x2=\"850\" y2=\"460\"><title>4 0 transfer L 0 1 ok paid 3<",
    // The scale and the key of the area.
    "y1=\"630\" x2=\"996\" y2=\"630\"",
    "x=\"140\" y=\"634\" text-anchor=\"end\">2<",
    "y1=\"530\" x2=\"996\" y2=\"530\"",
    "x=\"140\" y=\"534\" text-anchor=\"end\">8<",
    ">held by G</text>",
    ">paid to A</text>",
    // The legend has what there is.
    ">pays</text>",
];

/// What isn't there, and so isn't in the legend.
const ABSENT: [&str; 4] = ["challenged<", ">final<", ">refused<", "receiver unknown"];

#[test]
fn entries_stand_in_their_lanes_and_pay_whom_the_end_tells(rt: HostRuntime) -> Result<(), Fail> {
    let run = read_run(rt.alloc(), TEXT)?;
    let picture = picture_of(rt.alloc(), &run)?;
    let text = str::from_utf8(&picture)?;
    for piece in PIECES {
        assert!(rt; text.contains(piece));
    }
    for piece in ABSENT {
        assert!(rt; !text.contains(piece));
    }
    Ok(())
}

#[test]
fn text_is_escaped(rt: HostRuntime) -> Result<(), Fail> {
    let mut out = Vec::new(rt.alloc());
    escape(&mut out, b"<a & \"b\">\n")?;
    assert_eq!(rt;
        out.as_slice(),
        b"&lt;a &amp; &quot;b&quot;&gt;?".as_slice()
    );
    Ok(())
}
