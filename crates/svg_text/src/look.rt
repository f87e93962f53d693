/// How the elements of each class look, as a style sheet. Each class has a colour of the palette of Okabe and Ito,
/// which those who do not tell all colours apart can read, or a grey; the fills have dark edges, so that the shapes
/// stay in a print without colours.
pub const LOOK: &[u8] = b"\
text { font-family: sans-serif; font-size: 12px; fill: #000000; }
rect, circle, polygon { stroke: #000000; stroke-width: 1px; }
line, polyline { fill: none; stroke: #000000; stroke-width: 1px; }
.paper { fill: #FFFFFF; stroke: none; }
text.heading { font-size: 16px; font-weight: bold; }
text.note { font-size: 9px; text-anchor: middle; }
.lane { stroke: #BBBBBB; }
.band { fill: #FFFFFF; stroke: none; }
.other-band { fill: #EEEEEE; stroke: none; }
.take { fill: #000000; }
.touch { fill: #0072B2; }
.read { fill: #56B4E9; }
.clock { fill: #F0E442; }
.draw { fill: #CC79A7; }
.send { fill: #009E73; }
.end { fill: #E69F00; }
.again { fill: #FFFFFF; stroke: #0072B2; stroke-width: 2px; stroke-dasharray: 3 1; }
.lost { fill: #BBBBBB; stroke: #777777; }
.arrow { stroke: #777777; marker-end: url(#tip); }
.entry { fill: #56B4E9; }
.waiting { fill: #FFFFFF; stroke: #009E73; stroke-width: 2px; }
.released { fill: #009E73; }
.snap { stroke: #0072B2; stroke-width: 2px; stroke-dasharray: 6 3; }
.store { stroke: #0072B2; stroke-width: 2px; }
.crash { stroke: #D55E00; stroke-width: 3px; }
.recover { stroke: #009E73; stroke-width: 2px; stroke-dasharray: 2 2; }
.fed { stroke: #000000; stroke-width: 2px; }
.left { stroke: #009E73; stroke-width: 2px; }
.held { stroke: #E69F00; stroke-width: 2px; stroke-dasharray: 6 3; }
.bar { fill: #56B4E9; stroke: none; }
";

/// The tip of an arrow, which the style sheet names.
pub const TIP: &[u8] = b"\
<defs><marker id=\"tip\" viewBox=\"0 0 6 6\" refX=\"5\" refY=\"3\" markerWidth=\"6\" markerHeight=\"6\" orient=\"auto\">\
<polygon points=\"0,0 6,3 0,6\"/></marker></defs>
";
