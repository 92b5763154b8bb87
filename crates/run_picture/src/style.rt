//! The head of a picture, and its colours on light and dark backgrounds.

pub(crate) const HEAD: &str = "<svg xmlns=\"http://www.w3.org/2000/svg\" role=\"img\"";

/// The colours of callers, which colour-blind readers can tell apart, are k0 to k7. Those of layers, h0 to h5 and p0 to p5,
/// differ in lightness too. Colours are plain values, since many viewers know no variables; the dark ones are for those that
/// know the query.
pub(crate) const STYLE: &str = "<style>
text{font:11px system-ui,-apple-system,'Segoe UI',sans-serif;fill:#1b2430}
.paper{fill:#ffffff}.heading{font-size:20px;font-weight:600}.strong{font-weight:600;font-size:12px}
.small{fill:#566273}.warning{fill:#b3261e;font-weight:600}
.word{paint-order:stroke;stroke:#ffffff;stroke-width:3px;stroke-linejoin:round}
.rule{stroke:#d9dfe7;stroke-width:1}.time{stroke:#566273;stroke-width:1;stroke-dasharray:2 3}
.open{fill:#cdebdd}.challenged{fill:#ffdca6}.final{fill:#cdd3e8}
.arrow{stroke:#1b2430;stroke-width:1.4;marker-end:url(#tip)}.tip{fill:#1b2430}
.arrow.untold{stroke:#566273;stroke-dasharray:3 2}
.k0{fill:#4a5361;stroke:#4a5361}.k1{fill:#0068a8;stroke:#0068a8}.k2{fill:#c14a00;stroke:#c14a00}
.k3{fill:#007a58;stroke:#007a58}.k4{fill:#9c3f7d;stroke:#9c3f7d}.k5{fill:#8a6100;stroke:#8a6100}
.k6{fill:#5a54c4;stroke:#5a54c4}.k7{fill:#7a4a2b;stroke:#7a4a2b}
.mark{stroke-width:1.6}.mark.hollow{fill:#ffffff}
.in{font-size:9px;font-weight:600;fill:#ffffff;pointer-events:none}.in.hollow{fill:#1b2430}
.layer{stroke:#ffffff;stroke-width:.5}.grid{stroke:#1b2430;stroke-opacity:.2;stroke-width:1}
.h0{fill:#73bfe7}.h1{fill:#ccf5fb}.h2{fill:#788ed4}.h3{fill:#83d5d7}.h4{fill:#4db4a2}.h5{fill:#d8d9f8}
.p0{fill:#f2a46e}.p1{fill:#fcedc0}.p2{fill:#dc725d}.p3{fill:#e5c564}.p4{fill:#d1994b}.p5{fill:#fed1d1}
.layer.untold{fill:#c4c9d0}
@media (prefers-color-scheme:dark){
text,.tip,.in.hollow{fill:#e8edf3}.grid{stroke:#e8edf3}.paper,.mark.hollow,.in{fill:#11161d}
.small{fill:#a3b0bf}.warning{fill:#ff9d91}.word,.layer{stroke:#11161d}
.rule{stroke:#2c3642}.time,.arrow.untold{stroke:#a3b0bf}.arrow{stroke:#e8edf3}
.open{fill:#1f4d3b}.challenged{fill:#6b4712}.final{fill:#39425f}
.k0{fill:#b4bfcc;stroke:#b4bfcc}.k1{fill:#5db8f2;stroke:#5db8f2}.k2{fill:#ff9a57;stroke:#ff9a57}
.k3{fill:#3fd0a1;stroke:#3fd0a1}.k4{fill:#ea9fcd;stroke:#ea9fcd}.k5{fill:#f0c549;stroke:#f0c549}
.k6{fill:#a9a5ff;stroke:#a9a5ff}.k7{fill:#d3a98a;stroke:#d3a98a}
.h0{fill:#015875}.h1{fill:#133337}.h2{fill:#54679f}.h3{fill:#074d4f}.h4{fill:#04695c}.h5{fill:#36384d}
.p0{fill:#79431a}.p1{fill:#352f10}.p2{fill:#a5503f}.p3{fill:#544400}.p4{fill:#7d5515}.p5{fill:#503132}
.layer.untold{fill:#4b5360}
}
</style>
<defs><marker id=\"tip\" viewBox=\"0 0 8 8\" refX=\"7\" refY=\"4\" markerWidth=\"7\" markerHeight=\"7\" orient=\"auto\">
<path class=\"tip\" d=\"M0 0L8 4L0 8z\"/></marker></defs>
<rect class=\"paper\" width=\"100%\" height=\"100%\"/>
";
