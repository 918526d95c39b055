//! The style of every picture: the colours of the paints, on a light and on a dark ground (CSS 2.1 and Media Queries 5,
//! `prefers-color-scheme`).

/// The style sheet. Each paint is a class with a colour; shapes are filled with it, and lines are drawn in it.
pub(crate) const STYLE: &str = "
svg{font:12px sans-serif;background:#fff;max-width:100%;height:auto}
rect,polygon,text{fill:currentColor;stroke:none}
line,polyline{fill:none;stroke:currentColor;stroke-width:1.5}
.ground{color:#fff}.ink{color:#1b1f24}.faint{color:#636c76}.grid{color:#d8dee4}.edge{color:#c4cad1}
.box{color:#f6f8fa}rect.box{stroke:#8c959f}
.blocked{color:#ffd8b5}rect.blocked{stroke:#bc4c00}
.pathless{color:#eaeef2}rect.pathless{stroke:#8c959f;stroke-dasharray:4}
.route0{color:#0969da}.route1{color:#cf222e}.route2{color:#1a7f37}.route3{color:#8250df}
.route4{color:#bf5b00}.route5{color:#0b7f8a}.route6{color:#bf3989}.route7{color:#7d6000}
[class^=route]{stroke-width:3}
.sent{color:#0969da}.fetched{color:#8250df}.reach{color:#1a7f37}.written{color:#4ac26b}.silence{color:#afb8c1}
.hole{color:#cf222e}.limit{color:#bc4c00}.sound{color:#2da44e}.quiet{color:#9aa4af}
polygon{fill-opacity:.35}
polygon.hole,polygon.sound,polygon.silence,polygon.quiet,polygon.limit{fill-opacity:.9}
@media(prefers-color-scheme:dark){
svg{background:#0d1117}
.ground{color:#0d1117}.ink{color:#e6edf3}.faint{color:#9198a1}.grid{color:#262c36}.edge{color:#3d444d}
.box{color:#161b22}rect.box{stroke:#656c76}
.blocked{color:#5a2a06}rect.blocked{stroke:#f0883e}.pathless{color:#212830}rect.pathless{stroke:#9198a1}
.route0{color:#58a6ff}.route1{color:#ff7b72}.route2{color:#56d364}.route3{color:#bc8cff}
.route4{color:#ffa657}.route5{color:#39c5cf}.route6{color:#ff7bc0}.route7{color:#e3b341}
.sent{color:#58a6ff}.fetched{color:#bc8cff}.reach{color:#56d364}.written{color:#2ea043}.silence{color:#656c76}
.hole{color:#ff7b72}.limit{color:#f0883e}.sound{color:#3fb950}.quiet{color:#6e7681}
}
";
