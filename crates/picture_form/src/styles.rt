//! The parts of the document that are the same in every picture.

ghost use Rattle.std.specs.Prelude.{◌≡◌};
ghost use Rattle.picture_form.specs.Styles.{part_text};

/// A part of the document that is the same in every picture.
#[derive(Clone, Copy)]
pub enum Part {
    /// The styles, which set the colours of the classes.
    Style,
    /// The names of the lanes of configurations and reconfigurations.
    Names,
    /// The legend, and the end of the document.
    Legend,
}

/// The style element, with the colours of the classes on a light and on a dark background.
pub const STYLE: &str = concat!(
    "<style>svg{background:#fff;font:11px ui-monospace,monospace}text{fill:#1f2933}\n",
    ".name{text-anchor:end}.axis{text-anchor:middle}.axis,.note,.off+.value{fill:#5b6673}\n",
    ".ran{fill:#9cc3e6}.halting{fill:#eda94a}.preparing{fill:#f7e3a1}.initialising{fill:#74c3a5}\n",
    ".held{fill:#d5dbe1}.off{fill:#fff;stroke:#dde3e9}.lost{fill:#d4667a}.up{fill:#bccbd8}\n",
    ".v0{fill:#dbe7dd}.v1{fill:#f2cd85}.v2{fill:#e08a7a}.v3{fill:#b59ed3}\n",
    ".reconfiguration{fill:#3e4c59}.bound{fill:none;stroke:#7b8794;stroke-dasharray:3 2}\n",
    ".begin,.tick,.line,.stable{fill:none;vector-effect:non-scaling-stroke}.tick{stroke:#edf0f3}\n",
    ".begin{stroke:#7b8794;stroke-dasharray:1 3}.stable{stroke:#7b8794;stroke-width:2}\n",
    ".line{stroke:#2b6cb0;stroke-width:1.5}\n",
    "@media(prefers-color-scheme:dark){svg{background:#14181d}text{fill:#e4e7eb}.value{fill:#0f1d29}\n",
    ".axis,.note,.off+.value{fill:#9aa5b1}.ran{fill:#6b9fcb}.halting{fill:#d1923a}\n",
    ".preparing{fill:#d6c17f}.initialising{fill:#57a688}.held{fill:#8893a0}.lost{fill:#d9596c}\n",
    ".off{fill:#14181d;stroke:#333c46}.up{fill:#74889a}.v0{fill:#78917e}.v1{fill:#cfa453}\n",
    ".v2{fill:#cb7566}.v3{fill:#a088c4}.reconfiguration{fill:#cbd2d9}.tick{stroke:#232a32}\n",
    ".line{stroke:#7fb3e6}}</style>\n",
);

/// The names of the lanes of configurations and reconfigurations.
pub const NAMES: &str = concat!(
    "<text class=\"name\" x=\"128\" y=\"32\">configuration</text>\n",
    "<text class=\"name\" x=\"128\" y=\"60\">reconfiguration</text>\n",
);

/// The legend, which names the classes, and the end of the document.
pub const LEGEND: &str = concat!(
    "<path class=\"ran\" d=\"M8 0h12v12h-12z\"/><text x=\"26\" y=\"10\">ran</text>\n",
    "<path class=\"halting\" d=\"M136 0h12v12h-12z\"/><text x=\"154\" y=\"10\">halting</text>\n",
    "<path class=\"preparing\" d=\"M264 0h12v12h-12z\"/><text x=\"282\" y=\"10\">preparing</text>\n",
    "<path class=\"initialising\" d=\"M392 0h12v12h-12z\"/><text x=\"410\" y=\"10\">initialising</text>\n",
    "<path class=\"held\" d=\"M520 0h12v12h-12z\"/><text x=\"538\" y=\"10\">held</text>\n",
    "<path class=\"off\" d=\"M648 0h12v12h-12z\"/><text x=\"666\" y=\"10\">off</text>\n",
    "<path class=\"lost\" d=\"M776 0h12v12h-12z\"/><text x=\"794\" y=\"10\">lost</text>\n",
    "<path class=\"v0\" d=\"M8 20h12v12h-12z\"/><text x=\"26\" y=\"30\">first value</text>\n",
    "<path class=\"v1\" d=\"M136 20h12v12h-12z\"/><text x=\"154\" y=\"30\">second value</text>\n",
    "<path class=\"v2\" d=\"M264 20h12v12h-12z\"/><text x=\"282\" y=\"30\">third value</text>\n",
    "<path class=\"v3\" d=\"M392 20h12v12h-12z\"/><text x=\"410\" y=\"30\">fourth value</text>\n",
    "<path class=\"up\" d=\"M520 20h12v12h-12z\"/><text x=\"538\" y=\"30\">up</text>\n",
    "<path class=\"reconfiguration\" d=\"M648 20h12v12h-12z\"/><text x=\"666\" y=\"30\">reconfiguration</text>\n",
    "<path class=\"bound\" d=\"M776 20h12v12h-12z\"/><text x=\"794\" y=\"30\">its bound</text>\n",
    "</g>\n</svg>\n",
);

/// Returns the text of a part that is the same in every picture.
pub fn part_text(part: Part) -> &'static str
    ensures { result.now ≡ part_text part }
{
    match part {
        Part::Style => STYLE,
        Part::Names => NAMES,
        Part::Legend => LEGEND,
    }
}
