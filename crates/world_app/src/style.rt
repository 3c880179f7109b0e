//! How the picture's parts look.

/// The first words of the picture.
pub const OPENING: &[u8] = b"<svg xmlns='http://www.w3.org/2000/svg' viewBox='120 0 ";

/// Colours, widths and arrow heads, the rows' rules, and the words that explain the colours.
pub const STYLE: &[u8] = b"<style>\
text{font:12px sans-serif;paint-order:stroke;stroke:#fff;stroke-width:3px;stroke-linejoin:round;fill:#333}\
.name{font:bold 15px sans-serif;text-anchor:middle}\
.number{fill:#999;text-anchor:end}\
.none,.stop{fill:#c22f2f}\
path.dot{stroke:#333;stroke-width:8;stroke-linecap:round}\
path{fill:none}\
path.follower{stroke:#b8b8b8;stroke-width:2}\
path.candidate{stroke:#f0a818;stroke-width:4}\
path.leader{stroke:#2f9e50;stroke-width:7}\
tspan{font-weight:bold}\
tspan.follower{fill:#777}\
tspan.candidate{fill:#b87400}\
tspan.leader{fill:#1d7d3a}\
tspan.commit{fill:#1b4f9c}\
tspan.boot{fill:#c22f2f}\
.vote{stroke:#e08a00;stroke-width:1.5;marker-end:url(#vote)}\
.append{stroke:#2f6fd0;stroke-width:1.5;marker-end:url(#append)}\
.forward{stroke:#8a4fc8;stroke-width:1.5;marker-end:url(#forward)}\
.dashed{stroke-dasharray:5 3}\
marker path{stroke:none;marker-end:none}\
</style>\n\
<defs>\
<marker id='vote' viewBox='0 0 10 10' refX='15' refY='5' markerWidth='10' markerHeight='10' \
markerUnits='userSpaceOnUse' orient='auto'><path d='M0 1L10 5L0 9z' style='fill:#e08a00'/></marker>\
<marker id='append' viewBox='0 0 10 10' refX='15' refY='5' markerWidth='10' markerHeight='10' \
markerUnits='userSpaceOnUse' orient='auto'><path d='M0 1L10 5L0 9z' style='fill:#2f6fd0'/></marker>\
<marker id='forward' viewBox='0 0 10 10' refX='15' refY='5' markerWidth='10' markerHeight='10' \
markerUnits='userSpaceOnUse' orient='auto'><path d='M0 1L10 5L0 9z' style='fill:#8a4fc8'/></marker>\
<pattern id='rules' y='60' width='24' height='24' patternUnits='userSpaceOnUse'>\
<path d='M0 12H24' stroke='#eee'/></pattern>\
</defs>\n\
<rect x='120' width='100%' height='100%' fill='#fff'/>\n\
<rect x='160' y='84' width='100%' height='100%' fill='url(#rules)'/>\n\
<path class='follower' d='M140 20H164'/><text x='170' y='24'>follower</text>\
<path class='candidate' d='M236 20H260'/><text x='266' y='24'>candidate</text>\
<path class='leader' d='M340 20H364'/><text x='370' y='24'>leader</text>\
<path class='vote' d='M424 20H468'/><text x='474' y='24'>votes</text>\
<path class='append' d='M514 20H558'/><text x='564' y='24'>appends, replies</text>\
<path class='forward' d='M670 20H714'/><text x='720' y='24'>forwards, gaps</text>\n";
