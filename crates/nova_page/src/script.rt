//! The script of a page, packed, written by page/make.

use nv_lines::Message;

/// Appends the script.
pub fn push_script(out: &mut Message) {
    out.put(SCRIPT_0);
    out.put(SCRIPT_1);
    out.put(SCRIPT_2);
    out.put(SCRIPT_3);
    out.put(SCRIPT_4);
    out.put(SCRIPT_5);
    out.put(SCRIPT_6);
    out.put(SCRIPT_7);
    out.put(SCRIPT_8)
}

const SCRIPT_0: &str = r#"264
const 
const
return
.length
length
function 
function
value
register
place
.op==='
==='
;if(
.op===
.forEach(
from
.push(
number
row.
bytes
.map(
Number(
now.
.get(
.slice(
.join('
memory
){@!
new Map(
found
source
event
plain
else if(
for(@!
before
listing.labels
.textContent
;for(
<span class="
listing
for(
);@!
 class="
label
it=>it
.filter(
word
field
chart.
step
title
([0-9]+)
line
],['
this.
exception
@E.target.closest('[data-
 of 
new Set(
forms
chart
.startsWith('
,n)=>
note
Math.max(
@;hasCounts
code
[0-9]+
text
dataset.
classList.
.includes(
REGISTERS
ran.
form
name
count
at('
operation
behind(@F,
size
let 
 '+several(
</span>
rows
;}@*
row@/
[@.]
.split('
next
layouts
layout
entries
behind(
+' '+
writes
after
)@% 
.set(
;@% 
stripHeight
.has(
profile
out@5
@7defines
.reads
start
target
null
header
candidatesJ!
Object.assign(it,{
@7uses
protocol
checksum
),'click',@E=>{
(it.
.exec(
write
scratch
the 
showTip(
g.globalAlpha=
new Uint32Array(
&&it.
g.fillRect(x(
byte
')+'
literal
.querySelectorAll(
false
Math.
@;run
kind
{if(
type
read'
read
other
groups
depth
[...
@;input.args
.re@.(/
')@3@S.@nremove('
live
it@/
[it.
group
first
undefined
params
.indexOf(
address
sdram
root(
g.fillText(
.matchAll(/
);});
it=>
cell
@Hit@a
="'+
);})
',16
links
outcome
g.fillStyle=
between
,at)
document.
)continue
}@% 
while(
w[0]@0
state
partsOf(
find(
colour('
accesses
@(===
').@,
on(@u
halt'
data-
addEventListener(
[0]@0
row=
raised
isSame
isOurs
at@Aof=this@5
Array.@4({@):
.index
.getBoundingClientRect()
wide
scrollIntoView({block:'
left
@H@[@a@lJ$\n')@A
>'+safe(
,'hex'@]
',48,'station'@]
open
isWrite
height
SPILL_BASE
@|[at]
@fmerge(token(@-),JkJ?
@L@yn=
 present',
safe(
),'mouseleave',
made
@;@q
!=='
shift
of('
instruction
banks
Ethernet
@nadd('lit'
=>{@!
;put('
.setAttribute('aria-
),'mousemove',
'+@.+'
written
rowHeight
origins
it.list
@sWidth
@c@=@g.@R
.trim()
.flatMap(
list
@^rest('payload',at
;}@!
:'')
)===
()=>
packetGroups(
n+1<@J@(?@J[n
JV===
@]destination
@]JAJtQ?identifierJt@]sequence @6Jt
.toString(16)
 '+it
};@!
showFields
isLoop
bank
JRmin(
@^@8
@(>0
===0
:(x,y)=>[x
.test(
.scrollTop
,end
)@%'
&&half(@4+
said
parts
'use strict';@!BANKS=[['AJt@]BJt@]L',8@]LD',8@]S',8@]SD',8]];@!@p=BANKSQa([Qr,@x])=>Q6@x},(_@fQr+n)@PNONE=@p@(;@!NUMBER=@BJ]@p@9(@s@f[@s,n]),['none',NONE]]@PQD=512;@!ZERO=1,CARRY=2;
@!CONDITIONS={ALWAYS:0,Z:ZERO,NZ:ZERO,C:CARRY,NC:CARRYQohex=(n,Q9=8)=>(n>>>0)Qm.padStart(Q9,'0'@PQrOf=@-=>@p[@-]J_@k$/,''@Pseveral=(n,what)=>nJ,what+(n===1?'':'s');@*QP(@l,JT@Aw=@lJ$ '@Pit={@l,JT,@Us:w,op:w[0],JXs:[],J-:[],JXsFlags:0,J-Flags:0,J9:-1,goesOn:true};
@!@6=@s=>NUMBER@=@s@Prun=(Qr,@4,@t)=>Q6@t},(_@f@6(Qr+(@4+n)))@1J~alu'){J>@v:w[2],to:@6(w[1]),x:@6(w[3]),y:@6(w[4]),J-Flags:ZERO|CARRY});itJ7=Jcx,it.y];it.J-=Jcto];}@GJ~un'){
@!isShift=wQ*5;J>@v:w[2],to:@6(w[1]),QN:isShift?@:w[3]):0,x:@6(w[isShift?4:3]),J-Flags:ZERO|CARRY});itJ7=Jcx];it.J-=Jcto];}@GJ~immed'){J>to:@6(w[1]),@,:(@:w[2])<<@:w[3]))>>>0});it.J-=Jcto];
}@GJ~br'){J>condition:w[1],J9:@:w[2]@>1)),JXsFlags:CONDITIONS[w[1]],goesOn:w[1]QMALWAYS'});}@GJ~JW||J~JE'@AisWide=w[1]@0Jj';J>@@:w[1],@t:@:w[3]),x:@6(w[4]),offset:@:w[5]),unit:isWide?2:1});
Q]=run((J~JW?'L':'S')+(isWide?'D'Qe,@:w[2]),it.@t);itJ7=J~JW?Jcx]:Jcx,...Q]];it.J-=J~JW?Q]:[];}@GJ~Q-){J>@_:@:w[1]),@t:@:w[2]),goesOn:JQ});itJ7=run('A',0,it.@t);}it.J-=it.J-@T@-=>@-!==NONE);
@% itQdKINDS={mbb:'move Jx QQ',m:'move',l:'JO',s:'spill'};@*JXListing(@l@A@N={@j:[],@Rs:[]};Q=@R=/^L@Z:$/JD@[),Q1/^(?: *@k +)?([a-z][^;]*?) *(?:; ?(.*))?$/JD@[)@1@R)@J@5{@6:@:@R[1]),J8:@N.@j@(});
@Grow&&!@[@eJg '))@N.@j@5QP(row[1],KINDS[row[2]]||row[2]||''));J|@N@}JXMemory(@l@A@@={sram:JJ0),Jj:JJ0),JF:JJ1024),args:[]};Q=w=@[J$ ');
if(J~@@'){@@.sram=JJ@:w[1]));@@.Jj=JJ2*@:w[2]));}@GJ~args'){@@.args=w@>1)@9@U=>parseInt(@U,16));}@G@@[w[0]]@Aat=@:w[1])*(J~Jj'?2:1);w@>2)@3(@U@f{@@[w[0]][at+n]=parseInt(@U,16Jn
}J|@@QdcopyMemory=Jo({sram:it.sram@>),Jj:it.Jj@>),JF:it.JF@>),args:it.args@>)}@PALU={ADDQw+y,x+y>0xffffffff],SUBQw-y,x>=y],ANDQw&y,JQ],ORQw|y,JQ],XORQw^y,JQ],QoUN={COPY:x=>x,NOT:x=>~x,SHL:(x,k)=>x<<k,
SHR:(x,k)=>x>>>k,ROL:(x,k)=>(x<<k)|(x>>>(32-k)),};@*runCode(@j,@@,most,kept@A@-s=JJNONE+1@Pran={end:'going',@Xs:0,@ts:new Float64Array(@j@(),@.s:[],Q):[],J-:[],JECount:0,fault:J:,last:0,@@};@qhistory=@p@9Qg({@Xs:[],@Us:[]}));
@@.args@3(@U@f{@-s[n]=@U;});@-s[NUMBER@='B15')]=QD;@yzero=JQ,carry=JQ,@.=0,isKept=true;@!put=(@-,@U)=>{@-s[@-]=@U@1isKept&&@-!==NONE){@qhistory[@-].@Xs@5@q@Xs);@qhistory[@-].@Us@5@U>>>0);
}Qoaccess=Jo{@!@Us=@@Jc@@],Ji=@-sJcx]+it.offset,at=Ji*it.unit;@!QK={@X:@q@Xs,@.,QB:JbJE',@@:it.@@,at,@t:it.@t}@1at+it.@t>@Us@(){@qend='faultQn.@@J,Ji;@qfault=QKJ1JQ;}if(@qQ)@(<kept)@qQ)@5QK);
if(JbJW){Q]@3(@-@fput(@-,@Us[at+n]));}else{Q]@3(@-@f{@Us[at+n]=@-s[@-];})@1it.@@QMJF'||at<QD){@qJECount+=1@1@qJ-@(<64)@qJ-@5'JEQn.@@J,Ji+Q]@9r=>' '+hex(@-s[r]))@?'));
}J|true;};J}@q@Xs<most@Ait=@jJ!;@yJ%=@.+1,isOver=JQ;isKept=@q@Xs<kept@1isKept)@q@.s@5@.);@q@tsJ!+=1;switchJCop){case'alu':{@$[@U,isCarried]=ALUJc@v](@-sJcx],@-sJcy]);carry=isCarried;zero=@U>>>0Qv;putJCto,@U);
break;}case'un':{@!@U=UNJc@v](@-sJcx],it.QN);carry=JQ;zero=@U>>>0Qv;putJCto,@U);break;}case'immed':putJCto,it.@,);break;case'br':{@!isTaken=it.condition@0ALWAYS'||(itJ7Flags===ZERO?zero:carryQfJCconditionQ*1)@1isTaken)J%=it.J9;break;
}case'Q-:@qend=JC@_Qv?'ended':'Q2Qn.@_)+itJ7@9r=>' '+hex(@-s[r]))@?');isOver=true;break;default:isOver=!access(it);}@q@Xs+=1;@qlast=@.@1isOver)break;@.=J%;J|ran@}JvText(ran){@${sram,Jj,JF}=@q@@;@!@[s=[@qend,'J- '+@qJECount,...@qJ-,'@@ '+sram@(J,Jj@(/2];
@O@$[@s,@Us,unit]of[['sram',sram,1@]Jj',Jj,2@]JF',JF.subarray(0,QD),1]]){@O@yat=0;at<@Us@(;at+=8@Astretch=J]@Us.subarray(at,at+8)]@1stretch.some(@U=>@U!==0))@[s@5@sJ,at/unit+stretch@9@U=>' '+hex(@U))@?'));}J|@[s@?\nJN\n';
}@*JaBefore(@j@A@x=@j@(,Ja=[0,1,2]@9Qgnew Int32Array(@x+1)),uses=Ja@9@S@>)),kills=Ja@9@S@>)@P@I=Q6@x+1},Qg[]),Q;=[],waits=new Uint8Array(@x+1).fill(1);@j@3(it@f{@Hr@aitJ7)uses[r>>5][n]|=1<<(r&31);
"#;

const SCRIPT_1: &str =
    r#"@Hr@ait.J-)kills[r>>5][n]|=1<<(r&31);uses[2][n]=itJ7Flags;kills[2][n]=it.J-Flags@1it.goesOn)@I[n+1]@5n)@1it.J9>=0)@IJcJ9]@5nJsQG@x-1Qz=@x;n>=0;n-=1)JUn>0&&@j[n-1].goesOnJ{@L@y@.=n;@.<end;@.+=1)Q;@5@.);
end=n;}J}Q;Qu@An=Q;.pop(),J%=@j[n].goesOn?n+1:@x,J9=@j[n].J9<0?@x:@j[n].J9;@yQ3=true;waits[n]=0@L@ypart=0;part<3;part+=1@Abits=(Ja[part][J%]|Ja[part][J9])&~kills[part][n]|uses[part][n]@1bits!==Ja[part][n])Q3=JQ;Ja[part][n]=bits;
}if(Q3J{;@HJY@a@I[n])JUwaits[JY]Qv)Q;@5JY);waits[JY]=1;}J|@j@9(_@fJa@9part=>part[n]))QdisLive=(set,@-)=>(set[@->>5]>>>(@-&31)&1Qf1;@!ones=bits=>bits.toString(2)J$1')@(-1;@!JaCounts=set=>[ones(set[0]&0x7fff),ones(set[0]>>>16&0x7fff)];
@*JXProfile(@l@AJ4={@Xs:0,@Rs:@B)};Q=total=/^@Z @Xs?/JD@[),Q1/^ *@Z +@Z  L@Z$/JD@[)@1total)J4.@Xs=@:total[1])@1row)J4.@RsJ0@:row[3]),{@Xs:@:row[1]),J*:@:row[2])});
J|J4@}@RCounts(@N,@ts){@% @J@9(@R@f{@!end=Qi+1].J8:@ts@(;@y@Xs=0@L@yat=@R.J8;at<end;at+=1)@Xs+=@ts[at];@%{@6:@R.@6,J*:@ts[@R.J8],@Xs};})@}disagreement(@N,ran,Jv,J4){
if(JvText(ran)!==JvJ_^@_ .*\n/m,'')Q{its Jv is anJY'@1@q@Xs!==J4.@XsQ{it takes@z@q@Xs,'@X');@H@R@a@RCounts(@N,@q@ts)@Atold=J4.@Rs@=@R.@6)||{@Xs:0,J*:0}@1@R.J*!==told.J*||@R.J*>0&&@R.@Xs!==told.@XsQ{L'+@R.@6+' has JY @ts';
}@%'';}
@!PROTOCOLS={1:'ICMP',2:'IGMP',4:'IPv4',6:'TCP',17:'UDP',41:'IPv6',47:'GRE',50:'ESP',51:'AH',58:'ICMPv6',89:'OSPF',132:'SCTP'QoTYPES={0x0800:'IPv4',0x0806:'ARP',0x8100:'VLAN',0x86dd:'IPv6',0x8847:'MPLS',0x88a8:'VLAN'QoCONTROL=['FIN','SYN','RST','PSH','ACK','URG','ECE','CWR'];@!bitsOf=(@8,bit,@x)=>{
@y@,=0QGbit;n<bit+@x;n+=1)@,=2*@,+(@8[n>>3]>>(7-(n&7))&1)J1@,;Qo@sd=@ss=>@,=>@,+(@ss[@,]?' '+@ss[@,]:''@Pshown={@F:@,=>String(@,),hex:(@,,bits)=>'0x'+@,Qm.padStart(JRceil(bits/4),'0'),@8:@,=>several(@,*4,'JM'),
J@:@sd(PROTOCOLS),JV:@,=>shown.hex(@,,16)+(TYPES[@,]?' '+TYPES[@,]Qe,fragment:@,=>(@,&2?"don't fragment":@,&1?'more fragments':'none'),control:@,=>CONTROL@T(_@f@,>>n&1)@? ')||'none',@v:@sd({1:'request',2:'reply'}),ping:@sd({0:'echo reply',3:'unreachable',5:'redirect',8:'echo request',11:'time exceeded'}),
ping6:@sd({1:'unreachable',2:'too big',3:'time exceeded',128:'echo request',129:'echo reply',135:'solicitation',136:'advertisement'}),Ji:(_,__,@8)=>@8@?.'),station:(_,__,@8)=>@8@9JM=>hex(JM,2))@?:'),Ji6:(_,__,@8)QTQ~=Q68},(_@f(@8[2*n]*256+@8[2*n+1])Qm);
@% Q~@?:')J_(?:^|:)0(?::0)+(?::|$)/,'::');},QoHEADERS={QR:[['destinationQ@@DQ@JVJt,'JV']],VLAN:[['priority',3@]drop eligible',1@]VLAN',12@]JVJt,'JV']],MPLS:[['@R',20@]traffic class',3@]bottom@astack',1@]time to Ja',8]],
IPv4:[['version',4@]J; @)',4,'@8'@]DSCP',6@]ECN',2@]total @)Jt@]identificationJtQ?flags',3,'fragment'@]fragment offset',13@]time to Ja',8@]J@',8,'J@'@]J; JAJtQ?@D',32,'Ji'Qk',32,'Ji']],IPv6:[['version',4@]traffic class',8@]flow @R',20Q?payload @)Jt@]J% J;',8,'J@'@]hop limit',8@]@D',128,'Ji6'Qk',128,'Ji6']],
ARP:[['hardwareJt@]J@Jt,'JV'@]hardware @)',8@]J@ @)',8@]@vJt,'@v'@]senderQ@sender Ji',32,'Ji'@]J9Q@J9 Ji',32,'Ji']],TCP:[['@D portJtQk portJt@]sequence @6',32Q?acknowledgment @6',32Q?J; @)',4,'@8'@]reserved',4@]flags',8,'control'],
['windowJt@]JAJtQ?urgent pointerJt]],UDP:[['@D portJtQk portJt@]@)Jt@]JAJt,'hex']],ICMP:[['JV',8,'ping'@]@j',8Ql]],ICMPv6:[['JV',8,'ping6'@]@j',8Ql]],
GRE:[['JAQH1@]reserved',1@]keyQH1@]sequenceQH1@]reserved',9@]version',3@]JVJt,'JV']],Qo@xOf=J;=>HEADERS[J;].reduce((sum,@V)=>sum+@V[1],0)/8;@*checkSum(@8){@ysum=0QG0;n<@8@(;n+=2)sum+=@8[n]*256+(n+1<@8@(?@8[n+1]:0);
J}sum>0xffff)sum=(sum&0xffff)+(sum>>>16)J1sum@}@VsAt(@8,J;Jy{@ybit=8*atJ1HEADERS[J;]@9([@s,@x,how])QT@,=@x>48?0:bitsOf(@8,bit,@x@P@l=shown[how||'@F'](@,,@x,@8@>bit>>3,(bit+@x)>>3)@P@V={@s,bit,@x,@l,@,};
bit+=@xJ1@V;});}class Reader{@$ructor(@8){Qt=@8;@^JZ=[];}push(J;JyJUat+@xOf(J;)>Qt@(||@^JZ@(>=24J/J:;@!Jd={@Y:J;,at,@x:@xOf(J;),@Vs:@VsAt(Qt,J;Jy};@^JZ@5Jd)J1@s=>Jd.@Vs.Q%@V=>@V.@s===@s);
}rest(@Y,atQz@A@8=Qt@>at,Qsend,Qt@())@1@8Q*0)@%;@!@l=@8@>0,48)@9JM=>(JM>31&&JM<127?String.@4CharCode(JM):'.'))@?')+(@8@(>48?' ..'Qe;@^JZ[@^JZ@(-1].@Vs@5{@s:@Y,bit:8*at,@x:8*@8@(,@l,@,:0});
}check(@V,@8){@V.isRight=checkSum(@8Qf0xffff;}byType(JVJyJUQj0x0800)@^ipv4(at);@GQj0x86dd)@^ipv6(at);@GQj0x0806)this@5'ARP'Jy;@GQj0x8100||Qj0x88a8)@^tagged('VLAN'Jy;@GQj0x8847)@^mpls(at);@G@^JZQu)Qc,Qt@();
}tagged(J;,Q5J;Jy@1of)@^byType(QOJVQ+,at+@xOf(J;));}mpls(Q5'MPLS'Jy@1!of)@%@1QObottom@astackQ+Qv)@^mpls(at+4);@GQt[at+4]>>4===4)@^ipv4(at+4);@GQt[at+4]>>4===6)@^ipv6(at+4);
}ipv4(Q5'IPv4'Jy@1!of)@%;@!@)=4*QOJ; @)Q+Qz=Qsat+QOtotal @)Q+,Qt@()@1@)>20)@^rest('options',at+20,at+@));@^check(QOJ; JA'),Qt@>at,at+@))@PisPart=QOfragment offsetQ+>0||(QOflagsQ+&1Qf1||end<at+QOtotal @)Q+;
@!Jies=Qt@>at+12,at+20);@^transport(QOJ@Q+,at+@)Qz,Jies,isPart);}ipv6(Q5'IPv6'Jy@1!of)@%;@!full=at+40+QOpayload @)Q+Qz=Qsfull,Qt@();@yJ%=QOJ% J;Q+,@4=at+40;J}[0,43,60]@oJ%)&&@4+8<=end){
@!@x=8+8*Qt[@4+1];J%=Qt[@4];@^rest('further J;',@4,@4+@x);@4+=@x;}@^transport(J%,@4Qz,Qt@>at+8,at+40)Qz<full);}transport(J@,atQz,Jies,isPart@A@x=end-at,low=[@x>>8&255,@x&255];@!front=JiesQ*8?J]Jies,0,J@,...low]:J]Jies,0,0,...low,0,0,0,J@];
@!covered=isPlain=>(isPlain?[]:front).concat(Qt@>atQz)@P@s=PROTOCOLS[J@]@1J@===4J/@^ipv4(at)@1J@===41J/@^ipv6(at)@1J@===47J/@^gre(at)@1!HEADERS[@s]||@x<@xOf(@s)||@s@0QR'J/QcQz);
@!of=this@5@sJy@1!ofJ/Jf;@!JA=QOJA'),isAbsent=@s@0UDP'&&JA.@,Qv@1isAbsent)JA.@l+=' none';@G!isPart)@^check(JA,covered(@s@0ICMP')@P@)=@s@0TCP'?4*QOJ; @)Q+:@xOf(@s)@1@)>@xOf(@s))@^rest('options',at+@xOf(@s),at+@));
@% Qc+@)Qz);}gre(Q5'GRE'Jy@1!of)@%;@y@4=at+4@L@$[flag,@Y]of[['JAQH'JA'@]keyQH'key'@]sequenceQH'sequence @6']])JUof(flag).@,===1){@^JZ[@^JZ@(-1].@Vs@5{@s:@Y,bit:8*@4,@x:32,@l:shown.hex(bitsOf(Qt,8*@4,32),32),@,:0});
@4+=4;}}@^byType(QOJVQ+,@4);}}@*J8At(@8,at@Ahalf=@4=>@8[@4]*256+@8[@4+1],Q;=@8@(-at;@!isIpv4=@4=>@8[@4]>>4===4&&(@8[@4]&15)>=5Q|2)>=4*(@8[@4]&15)
&&checkSum(@8@>@4,@4+4*(@8[@4]&15))Qf0xffff;@!isIpv6=@4=>@8[@4]>>4===6Q|4)>0Q|4)<=@8@(-@4-40
"#;

const SCRIPT_2: &str =
    r#"&&(PROTOCOLS[@8[@4+6]]!==Jf||[0,43,44,59,60]@o@8[@4+6])@PisArp=@4=>half(@4Qf1Q|2Qf0x0800Q|4Qf0x0604;@!behind=@4QTJV=half(@4)@1Qj0x0800J/isIpv4(@4+2)@1Qj0x86ddJ/isIpv6(@4+2)@1Qj0x0806J/isArp(@4+2);
if(Qj0x8100||Qj0x88a8J/J+@4+4)J1Qj0x8847;}@1Q;>=20&&isIpv4(at)Q{IPv4'@1Q;>=40&&isIpv6(at)Q{IPv6'@1Q;>=34&&J+at+12)Q{QR'@1Q;>=28&&isArp(at)Q{ARP';@%''@}Qh@8,like@AJXer=new Reader(@8);
@O@yat=0;at+20<=@8@(&&at<4096;at+=4@AJ8=J8At(@8Jy@1J8@0'J{@1J8@0QR')JXer.tagged('QR'Jy;@GJ8@0IPv4')JXer.ipv4(at);@GJ8@0IPv6')JXer.ipv6(at);else JXer@5'ARP'JyJ1JXer.JZ;J|like?J;sAt(@8,like.@Y,like.at):JXer.JZ;
}@*J;sAt(@8,@Y,at@AJXer=new Reader(@8)@1@Y@0QR'||@Y@0VLAN')JXer.tagged(@YJy;@G@Y@0IPv4'||@Y@0IPv6'||@Y@0MPLS'||@Y@0GRE')JXer[@Y.toLowerCase()](at);else JXer@5@YJyJ1JXer.JZ@}JXLayouts(@l){
@!J(=[];Q=head=/^J) `(\w+)`: @Z bits?, @Z @Us?/JD@[)@1head)J(@5{@s:head[1],bits:@:head[2]),@Us:@:head[3]),@Vs:[]}@P@V=/^ {4}([\w.]+): @U @Z, bit @Z, @Z bits?/JD@[)@1@V&&J(Qu)J([J(@(-1].@Vs@5{path:@V[1],bit:32*@V[2]+@:@V[3]),@x:@:@V[4])});
J|J(@}J)Group(@8,J),at@AJd={@Y:'J) '+J).@s,at,@x:4*J).@Us,@Vs:[]};@yabove=[];@H@V@aJ).@Vs@AQ~=@V.pathJ$.'),@s=Q~.pop();Q~@3(part,J[)=>JUabove[J[]!==part){Jd.@Vs@5{@s:'\u2007'.repeat(2*J[)+part,bit:8*at+@V.bit,@x:0,@l:'',@,:0});
above=[];}});above=Q~;@!bit=8*at+@V.bit@1bit+@V.@x>8*@8@()break;@!@,=bitsOf(@8,bit,@V.@x@PJe=@V.bit&31,last=Je+@V.@x-1;@!where='@U '+(@V.bit>>5)+(@V.@x===32&&JeQv?'':Je===last?', bit '+Je:last>31?', @4 bit '+Je:', bits '+Je+' to '+last);
Jd.@Vs@5{@s:'\u2007'.repeat(2*Q~@()+@s,where,bit,@x:@V.@x,@l:@V.@x>3?@,+' = '+shown.hex(@,,@V.@x):String(@,),@,});J|Jd@}checkFields(@A@xs={QR:14,VLAN:4,MPLS:4,IPv4:20,IPv6:40,ARP:28,TCP:20,UDP:8,ICMP:8,ICMPv6:8,GRE:4};
@% Object.keys(HEADERS)@T@s=>@xOf(@s)!==@xs[@s])@9@s=>@s+' has '+@xOf(@s)+' @8');}
@*JXSource(@l@A@F=@lJ_\/\/.*/g,Jo' '.repeat(it@()@PisAscii=/^[\0-\x7f]*$/Qx@l),J8s=[0],@8=new TextEn@jr().en@j(@l@Pde@jd=at=>(isAscii?at:new TextDe@jr().de@j(@8@>0Jy)@();Jq@lJm\n/g))J8s@5itQ7+1);
@!@+s=J]@FJm\b(?:fun|and)\s+(\w+)\s*\[/g)]@9Jo({@s:it[1],@4:itQ7})@P@[At=at=>J8s@T@S<=at)@(;@!@+At=at=>(@+s@T@S.@4<=at).pop()||{@s:''}).@s;@%{@l,@F,@+s,tails:tailsOf(@F),de@jd,@[At,@+At};
}@*@wat){@yJ[=0QGat;n<@F@(;n+=1)JU'([{'@o@F[n]))J[+=1@1')]}'@o@F[n]))J[-=1@1J[QvJ/n+1;J|@F@(@}endOf(@F,at@Aends=/[;,)\]}]|\belse\b|[([{]/g;ends.lastIndex=at@L@y@C=endsJD@F);@C;@C=endsJD@F)){
if(!'([{'@o@C[0])J/@CQ7;ends.lastIndex=@w@CQ7);J|@F@(@}tailsOf(@F@Aout=[],skip=at=>at+/^\s*/JD@F@>at))[0]@(,matched=(@rJy=>@rJD@F@>at,at+400)@Pblock=J8=>{@yat=skip(J8)@L;;@AisLet=matched(/^let\b/Jy,store=matched(/^(?:sram|Jj|JF)\s*\(/Jy;
@!@,=isLet?at:store?@wat+store[0]@(-1):-1@1@,<0||store&&!matched(/^\s*<-/,@,)J/tail(at);at=skip(Q!mentEnd(@,)+1);}QoQ!mentEnd=J8=>{@O@yat=endOf(@F,J8);;at=endOf(@F,at+4))if(@F[at]QMe'J/at;Qotail=J8QTat=skip(J8),@U=(matched(/^(?:if|raise|try)\b/Jy||[''])[0];
@!QAed=(@4,QA)=>@FJhQA,@4)@1@U@0if'@AJ%=skip(block(@wQAed(at,'('))))J1@F@eelse',J%)?block(J%+4):J%;}if(@U@0raise'J/@wQAed(at,'['))@1@U@0try'@Abody=QAed(at,'{'),handler=QAed(@wQAed(@wbody),'[')),'{');
block(body+1);block(handler+1)J1@whandler)Qdend=endOf(@FJy,inner=@F@>atQz).trimEnd()@1innerQ0('&&J+inner,0Qfinner@(&&Q$inner@>1,-1))Q*1)block(at+1);else J5{@4:at,to:at+inner@(})J1end;Qomain=/\b(?:fun|and)\s+main\s*\[/JD@F),Jg=main?@wmainQ7+main[0]@(-1):0;
@!JV=main?/^\s*:\s*/JD@F@>Jg)):J:,Je=JV?Jg+JV[0]@(:0@1JV)block(@FJh'{',@F[Je]@0{'||@F[Je]@0('?@wJe):Je)+1)J1out@}Q$@l@Aout=[''];@yJ[=0;@Hc@a@l)JU'([{'@oc))J[+=1;
if(')]}'@oc))J[-=1@1c@0,'&&J[Qv)J5'');else out[out@(-1]+=c;J|out@9@SQ`)@T@SQM')@}JXEvents(@l){@$[Qb,tail]=@lJ$\n')@1tail===JfJ/J:;@!@6s=tailJ$ ')@9Number),sum=@6s.pop(),[here,last]=@6s;
@%{Qb:J]QbJm([cbfs])@Z/g)]@9Jo({JT:it[1],at:@:it[2])})),here,last,sum,hasAll:here!==Jf}QdisAccess=@E=>@E.JT@0f'||@E.JT@0s';@*sumOf(Q)){@ysum=2166136261;JqQ)@Aunit=it.@@@0Jj'?2:1,@@=['sram','Jj','JF']Q7OfJC@@);
@Hn of[@@+JCQB?3:0),it.at/unit,it.@t])sum=JRimul(sum^n,16777619);J|sum>>>0@}@+sBetween(@Es,@ss@Astack=['main'];@ynow=@bstack@Pout=[now];@H@E@a@Es.Qb)JU@E.JT@0c')stack@5@ss[@E.at]||'')@1@E.JT@0b')stack@(=@E.at+1;
if(isAccess(@E)){now=@b);J5now);}@;add(stack[stack@(-1]);J|out@}JuOf(@j,@D,ran,@Es,mostEvents,@_s@AJu={@.s:@B),@Rs:@B),isKnown:JQ}@1!@EsJ/Ju;@!@gd=@Es.Qb@TisAccess),isCut=@Es.Qb@(>=mostEvents;
@!QK=@qQ)@TJo!@jJc@.].JT@espill')&&(@Es.hasAll||it.QB))@1@Es.hasAll&&@qfault&&!@qfault.QB)QK@5@qfault@PQ3=@gdQ*QK@(||isCut&&@gd@(<QK@(@1!Q3||sumOf(QK@>0,@gd@())!==@Es.sum||@gd.some((@E@f(@E.JT@0s')!==QK[n].QB)J/Ju;
Ju.isKnown=true;@!tie=(@.Jy=>JU!Ju.@.sJ3@.))Ju.@.sJ0@.,@b));Ju.@.s@=@.).add(at);};@gd@3(@E@ftie(QK[n].@.,@D.de@jd(@E.at)))@1!@Es.hasAllJ/Ju;@!end=@j[@qlast],Q2=end@/Q-&&end.@_>0?raiseAt(@D,@D.de@jd(@Es.last),@_s@=end.@_)):J:;
if(Q2)tie(@qlast,Q2Q7);@Gend@/Q-&&end.@_Qv||@qfault&&@qfault.QB@Ahere=@D.de@jd(@Es.here),@C=@D.tails.Q%@S.@4<=here&&here<it.to);tie(@qlastQz@/Q-&&@C?@C.@4:here)QdJx=@+sBetween(@Es,@D.@+s@9@S.@s));
@ydone=0;@q@.s@3(@.,@X)=>{J}done<QK@(&&QK[done].@X<@X)done+=1@1isCut&&done>=@gd@(||!Jx[done])@%;@!@I=Ju.@Rs@=@.)||Jx[done];@y@C=@I;Jq@I)if(!Jx[done]J3it))@C=@bJ]@I]@TJY=>Jx[done]J3JY)));
Ju.@RsJ0@.,@CJsJ1Ju@}raiseAt(@D,at,@s@A@C=J]@D.@FJm\braise\s+(\w+)\s*/g)]@T@S[1]===@sJKindex<=at)J1@C.reverse().Q%Jo{@!QA=itQ7+it[0]@(J1at<QA||@D.@F[QA]@0['&&at<J+@D.@F,QA);
})QdisName=Jo/^[A-Za-z_][\w.]*$/Qxit)&&itQM_';@*@ssAt(@D,J(,at,@t,what){@${@F}=@D,fitting=Q~=>(Q~Q*@t?Q~@9Jo(isName(it)?itQe):[]@PinBrackets=(@l,QA)=>(@l[0]===QA?Q$@l@>1,-1)):[@l])@1what@0JW@A@I=/\blet\s+(\w+|\([^()]*\))\s*=\s*(?:unpack\s*\[\s*(\w+)\s*\]\s*\(\s*)?$/JD@F@>0Jy);
if(!@I)@%[]@1!@I[2]J/fitting(inBrackets(@I[1],'(')@PJ)=J(.Q%@S.@s===@I[2])@1!J)||!isName(@I[1])||J).@Us!==@t)@%[]J1Q6@t},(_@f{@!@V=J).@Vs.Q%@S.bit===32*nJK@x===32)J1@I[1]+(@V?'.'+@V.path:', @U '+n);
});}if(what@0JE'@AQA=@FJh'('Jy,arQ1/^\s*<-\s*/JD@F@>@wQA)))@1QA<0||!arrow)@%[];@!@4=@wQA)+arrow[0]@(;@!end=@F[@4]@0('?@w@4):@FJh';',@4)J1fitting(inBrackets(@F@>@4Qz)Q`,'('));
"#;

const SCRIPT_3: &str =
    r#"}@!Q2=raiseAt(@D,at,what@PQA=Q2?Q2Q7+Q2[0]@(:-1J1Q2&&@F[QA]@0['?fitting(Q$@F@>QA+1,@wQA)-1))):[]@}mainNames(@D,@t@A@C=/\bfun\s+main\s*\[([^\]]*)\]/JD@D.@F@P@ss=@C?Q$@C[1])@9@SJ$:')[0]Q`):[];
@% @ssQ*@t?@ss:[];}
@!@,sIn=Jo(it?itJ$,')@9n=>'v'+n):[]@PDEFINED=/^([0-9,]+)=(?:(clone|~)@Z|(\w+)\[@k\]\(@Z\)|@Z(<<|>>|rol|[-+&|^])@Z|(\w+))$/;@!DONE=/^(?:if@Z([=!<>]+)@Z\{|jump@Z\(([0-9,]*)\)|end(?:Q2@Z)?\(([0-9,]*)\)|(\w+)\(@Z\)<-([0-9,]+))$/;
@!SHIFTS={'<<':'SHL','>>':'SHR',rol:'ROL'},OPERATIONS={'+':'ADD','-':'SUB','&':'AND','|':'OR','^':'XOR'},FAILS={'==':'NZ','!=':'Z','<':'C','>=':'NC'};@*JXNode(@[@AQ1{@[,op:'',defines:[],uses:[],J%:-1,J[:1},isDefined=@[[0]<='9',m=(isDefined?DEFINED:DONE)JD@[)@1!mJ/row;
if(isDefined){J6=@,sIn(m[1]);J?=@,sIn(m[3]||m[5]||m[6]);@7op=m[2]@0clone'?'clone':m[4]?'JW:m[9]?'JO':m[2]||SHIFTS[m[7]]?'un':'alu';@7@@=m[4];@7@v=m[2]@0~'?'NOT':SHIFTS[m[7]]||OPERATIONS[m[7]];@7sign=m[7];@7@U=@:m[9]);@7JO=m[9]@1@~alu')J?@5'v'+m[8]);
else @7QN=@:m[8]||0)J1row;}@7op=m[1]?'if':m[4]?'jump':m[8]?'JE':'Q-;J?=m[1]?['v'+m[1],'v'+m[3]]:@,sIn(m[8]?m[9]+','+m[10]:m[5]||m[7]);@7sign=m[2];@7fails=FAILS[m[2]]@1m[4])@7J%=@:m[4]);@7@_=@:m[6]||0);@7@@=m[8]J1row@}@lOf(row){
@$[x,y]=J?,Qb=J?@?, '@PQ}={clone:'clone '+x,JX:@7@@+'['+J6@(+']('+x+')',un:@7@v@0NOT'?'~'+x:xJ,@7signJ,@7QN,alu:xJ,@7signJ,y,JO:@7JO,if:'if '+xJ,@7signJ,y+' {',jump:'jump '+@7J%+'('+Qb+')',halt:'end '+(@7@_?'Q2 '+@7@_+' ':'JN('+Qb+')',
JE:@7@@+'('+x+') <- '+J?@>1)@?, '),}J1J6@?, ')+(J6Qu?' = 'Qe+(Q}[@7op]||@7@[)@}JXForm(@l@A@c=@B);@y@r=J:,J[=1;@H@[@a@lJ_\\/g,'<')J$\n')@Ahead=@[Q0l'?/^@R@Z\(([0-9,]*)\)/JD@[):J:;
if(head@Aroots=@B);@r={@6:@:head[1]),Jg:@,sIn(head[2]),@|:[],J%:@b),JOs:@B),QK:@B),root:@,=>roots@=@,)||@,};@r.clone=Q1>J6@3JorootsJ0it,@r.JkJ?[0])));@cJ0@r.@6,@r);J[=1;}@G@r&&@[QM'){
@!Q1JXNode(@[)@1@[@0}')J[-=1;@7J[=J[;@r.@|@5row);JqJ6)@r.QKJ0it,row)@1@~if')J[+=1;@G@~clone')@r.clone(row);@G@~JO')@r.JOsJ0J6[0],@7@U);@G@~jump')@r.J%.add(@7J%);
}J|@c@}Q3(@c,@r,x,y,seen)JUx===y||seenJ3xJ,y)J/true;seen.add(xJ,y@Pa=@r.QK@=x),b=@r.QK@=y),n=@r.JgJhx),m=@r.JgJhy)@1a&&b)@%['un','alu','JO']@oa.op)&&['op','@v','QN','JO'].every(Joa[it]===b[it])&&a.uses.every((use,k)=>Q3(@c,@r,@r.Jkuse),@r.Jkb.uses[k]),seen));
if(n<0||m<0||@r.@6QvJ/JQ;@%J]@c.@,s()].every(@4=>!@4.J%J3@r.@6)||@4.@|.every(Q1>@7J%!==@r.@6||Q3(@c,@4,@4.JkJ?[n]),@4.JkJ?[m]),seen)))@}walkLive(@r,tell@Asecond=[];@yJa=@b)QG@r.@|@(-1;n>=0;n-=1){
@!Q1@r.@|[n]@1@7@[@0}'){second@5Ja);Ja=@b);continue;}if(@~Q-||@~jump')Ja=@b)@1@~if')Jqsecond.pop())Ja.add(it);JqJ6)Ja.delete(it)@1@7opQMclone')JqJ?)Ja.add(@r.Jkit));
tell(row,Ja);}}@!merge=(token,@,,Q!)=>JU!token||!@,||token.@,===@,)@%@1token.@,&&!Q3(Q!.@c,Q!.@r,@,,token.@,,@b)))Q!.isWrong=true;token.@,=@,;};@*followLabel(@j,@c,@r,J8Qz,entry@Aheld=@Bentry),arms=@B),Q!={isWrong:JQ,@c,@r},out=[];
@!slots=@B),@|=@r.@|@TQ1>@7opQMclone'&&@7opQM');@yat=0,now=@Bheld@Ptoken=@-=>JU!@;has(@-)@Ait={@,:J:};@;set(@-,it)@1!entryJ3@-)&&@p[@-][0]<'C')entryJ0@-,it);J|@;get(@-);Qoroot=@,=>@r.Jk@,);
@!fits=(row,it)=>JU@~JO'J/Jbimmed'JK@,===@7@U@1@~un'||@~alu'J/it@2@7opJK@v===@7@v&&JCQN||0Qf(@7QN||0)@1@~JW||@~JE'J/it@2@7opJK@@===@7@@JK@t===(@~JW?J6@(:J?@(-1);
if(@~Q-J/JbQ-JK@_===@7@_JK@t===J?@(@1@~jump'J/Jbbr'JKcondition@0ALWAYS'J1@~if'&&Jbbr'JKconditionQMALWAYS';}@L@y@.=J8;@.<end;@.+=1)JUarmsJ3@.))now=@Barms@=@.));
@!it=@jJ!,isCopy=Jbun'JK@v@0COPY'JKto!==NONE;@!isTest=it.to===NONE,isSpill=it.JT@espill'@P@g={@.,row:J:,JXs:@B),J-:@B)};J5@g)@1isCopy@A@U=tokenJCx);@gJ7J0it.x,@U);@;setJCto,@U);@g.J-J0it.to,@U);
}@GisSpill){Q]@3(@-@f{@!slot=it.offset+n@1JbJE')slotsJ0slot,token(@-));else @;set(@-,slots@=slot)||{@,:J:});(JbJE'?@gJ7:@g.J-)J0@-,@;get(@-)Jn}@GisTest@AQ1QE;@H@-@aitJ7)@gJ7J0@-,token(@-));
@!J%=@|@>at).Q%JY=>JY.opQMJO')@1J%&&J%@/if'&&Jbalu'){merge(tokenJCx),JkJ%.uses[0]),Q!);merge(tokenJCy),JkJ%.uses[1]),Q!);}@g.Q1J%||row;}else{J}at<@|@(&&!fits(QE,it)&&(QE@/JO'||QE@/un'||QE@/alu'))at+=1;
@!Q1QE@1!row||!fits(row,it)J/J:;at+=1;@g.Q1row;@H@-@aitJ7)@gJ7J0@-,token(@-))@1@~alu'||@~un')itJ7@3(@-QF[n]),Q!))@1@~JW)merge(tokenJCx),JkJ?[0]),Q!);
if(@~JE')Jcx,...Q]]@3(@-QF[n]),Q!))@1@~Q-)itJ7@3(@-QF[n]),Q!));it.J-@3(@-@f{@;set(@-,{@,:J6[n]||J:});@g.J-J0@-,@;get(@-));
})@1@~if'JKcondition===@7fails)armsJ0it.J9,@Bnow))@1@~if'JKcondition!==@7fails){J}at<@|@(&&(QE@/JO'||QE@/un'||QE@/alu'))at+=1@1at===@|@(||QE.opQMjump'J/J:;@g.arm=QE;@g.held=@Bnow);
at+=1;}if(@~jump')@g.held=@Bnow);}if(Q!.isWrongJ/J:;J|out@}followCode(@N,@c@A@gs=[],J*=@B@Pends=@J@9(_@f(Qi+1].J8:@N.@j@());@J@3(@R@f{
@!@r=@c@=@R.@6),entry=@B)@1!@r)@%@1@R.@6Qv)@r.Jg@3(@,,k)=>entryJ0k,{@,})@P@C=followLabel(@N.@j,@c,@r,@R.J8Qzs[n],entry)@1!@C)@%;J*J0@R.@6,entry);@H@g@a@C)@gs[@g.@.]=Object.assign(@g,{@R:@R.@6});
});@H@g@a@gs@AQ1@g&&(@g.arm||@g.row)@1!row||@7opQMjump'||!@g.held||!J*J3@7J%)J{;@!@4=Q_),to=@c@=@7J%),Q!={isWrong:JQ,@c,@r:@4}@L@$[@-,@U]of J*@=@7J%)@A@.=@U.@,?to.JgJh@U.@,):-1,given=@g.held@=@-);
if(@.>=0&&given)merge(given,@4.JkJ?J!),Q!);}if(Q!.isWrong)Jq@gs)if(itJK@R===@g.@R)@gsJc@.]=Jf;J|@gs;}
@*keyOf(it,@_s)JUJbQ-J/it.@_>0?'raise '+@_s@=it.@_):'JGend'@1it.JT@espill')||it.opQMJWJKopQMJE'Q{'J1JbJW?'JXQn.@@J,it.@t:'JEQn.@@Qd@UsIn=Q~=>Q~@9Jo(/^(?:0[xX][0-9a-fA-F]+|@k)$/Qxit)?@:it):J:));
@*actsOf(@D,J(){@${@F}=@D,out=[];Jq@FJm\b(sram|Jj|JF)\s*(?:\[\s*(\w+)\s*\]\s*)?\(|\braise\s+(\w+)\s*\[/g)@AQA=itQ7+it[0]@(-1,close=@wQA)@1it[3]@A@Us=@UsIn(Q$@F@>QA+1,close-1)));J5{key:'raiseQn[3],at:itQ7,@t:J:,@Us});
}else{J5it[2]?{key:'JXQn[1]J,@:it[2]),at:itQ7,@t:J:,@Us:[]}:{key:'JEQn[1],at:itQ7,@t:storedCount(@F,J(,close),@Us:[]});}}Jq@D.tails@A@Us=@FJc@4]@0('?@UsIn(Q$@F@>it.@4+1,it.to-1))):@UsIn([@F@>it.@4,it.to)Q`]);
J5{key:'JGend',at:it.@4,@t:J:,@Us});J|out@}storedCount(@F,J(,@4@AarQ1/^\s*<-\s*/JD@F@>@4))@1!arrowJ/J:;@!begin=@4+arrow[0]@(,@,=@F@>beginQzOf(@F,begin))Q`,isWhole=@,Q0('&&J+@,,0Qf@,@(;
@!J)=/^pack\s*\[\s*(\w+)\s*\]\s*\(/JD@,),@C=J)&&J(.Q%@S.@s===J)[1])@1@C&&J+@,,J)[0]@(-1Qf@,@(J/@C.@Us@1isWhole&&Q$@,@>1,-1))@(>1J/Q$@,@>1,-1))@(;@%/^(?:[\w.]+\s*(?:[-+&|^]|<<|>>)|[0-9]|~)/Qx@,)?1:J:;
"#;

const SCRIPT_4: &str =
    r#"}@*actsFor(acts,it,@_s,@g,@c@Akey=keyOf(it,@_s),Q1@g&&@g.row,@r=@g&&Q_@PJOs=row&&@r&&@~Q-?J?@9@,=>@r.JOs@=@r.Jk@,))):[];@!isOther=act=>act.@t!==J:&&act.@t!==it.@t||act.@UsQ*JOs@(&&act.@Us.some((@U@f@U!==J:&&JOs[n]!==Jf&&@U!==JOs[n]);
@% key@0'?[]:acts@Tact=>act.key===key&&!isOther(act))@9act=>act.at)@}@RNamesOf(@N,@D,runs,Q[@A@ss=@B);@J@3({@6,J8}@f{@!sets=runsQarun=>(run.Ju&&run.Ju.@RsJ3J8)?[run.Ju.@Rs@=J8)]:[]));
@!all=@6Qv?['main']:setsQu?J]sets[0]]@TJosets.every(set=>setJ3it))):[];@!end=Qi+1].J8:@N.@j@(;@!@C=@bQ[@>J8Qz)QaJo{@!@+s=J]@bit@9@D.@+At))]J1@+sQ*1?@+s:[];
}))@1allQ*1)@ssJ0@6,all[0]);@G@C.@x>0&&@C.@x<3)@ssJ0@6,'with '+J]@C]@?, ')JsJ1@ss@}@,NamesOf(@D,J(,@c,@gs,Q[,@_s@A@ss=@B@P@sValue=(@,,@Y)=>JU!@,||!@Y)@%;@!@Ys=@ss@=@,)||[];
if(!@Ys@o@Y))@ssJ0@,,@Ys.concat(@Y));}@1@cJ30))mainNames(@D,@c@=0).Jg@()@3(@Y@f@sValue(@c@=0).Jg[n],@Y));@gs@3(@g,@.)=>JU!@g||!@g.row||Q[J!@(!==1)@%;@$[@C]=Q[J!,{row}=@g,root=Q_).root;
@!isRead=@~JW,uses=@~JE'?J?@>1):J?;@!what=@~Q-&&@7@_>0?@_s@=@7@_):@7op@1isRead)@ssAt(@D,J(,@C,J6@(,'JW)@3(@Y@f@sValue(J6[n],@Y));@G@~JE'||@~Q-)@ssAt(@D,J(,@C,uses@(,what)@3(@Y@f@sValue(Jkuses[n]),@Y));
});@sParams(@c,@ss,@sValue)J1@ss@}@sParams(@c,@,Names,@sValue@Ahanded=[];@H@r@a@c.@,s()){@Hrow@a@r.@|)if(@~jump'&&@cJ3@7J%))@c@=@7J%).Jg@3(param@fhanded@5[param,@r.JkJ?[n])]));
}@!@ss=@BJ]@,Names]@9([@,,@Ys])=>[@,,@Ys[0]])),isParam=@bhanded@9@S[0])@Pusers=@Bhanded@9Jo[it[1],[]])),Q;=[]@L@$[param,@,]of handed){users@=@,)@5param)@1!isParamJ3@,)&&!@ssJ3@,))@ssJ0@,,'');}Q;@5...@ss.keys());
J}Q;Qu@A@,=Q;.pop();@Hparam@ausers@=@,)||[])JU@,NamesJ3param)||@ss@=param)@0'||@ss@=paramQf@ss@=@,)J{;@ssJ0param,@ssJ3param)?'':@ss@=@,));Q;@5param);}}@O@$[@,,@Y]of @ss)if(!@,NamesJ3@,))@sValue(@,,@Y);
}
@!at=id=>JzgetElementById(id@Pall=css=>documentJPcss),Je=css=>JzquerySelector(css@Pon=(it,JT,does)=>it.Q/JT,does@P@l=id=>(at(id)?at(id)@K:''@Psafe=JoString(it)J_[&<>"]/g,c=>({'&':'&amp;','<':'&lt;','>':'&gt;','"':'&quot;'})[c]);
@!@[s=@SJ$\n')@T@[=>@[QM'@Pput=(id,html)=>{at(id).innerHTML=html;QomostSteps=1000000,keptSteps=20000,mostEvents=3000;@!@s=@l('@s')Q`,baseName=@SJ_^.*\//,''@P@N=JXListing(@l('@N')@P@j=@N.@j;@!Ja=JaBefore(@j);
@!@_s=@BJ]@l('@xs')Jm^@_ `(\w+)`: `Q2 @Z`/gm)]@9Jo[@:it[2]),it[1]])@PJ(=JXLayouts(@l('@xs')@P@D=JXSource(@l('@D')@P@c=JXForm(@l('@r')@P@gs=followCode(@N,@c);@y@XsLeft=20*mostSteps;
@!runs=@[s(@l('memories'))@9(@Y@f{@!of=id=>@l(id+(n||'')),J4=JXProfile(QOJ4')@Pit={@Y,@@:JXMemory(QO@@')),Jv:QOJv'),J4Text:QOJ4'),J4,ran:J:,@C:'it is too long to be replayed here',Ju:J:}@1J4.@Xs>@XsLeftJ/it;
@XsLeft-=J4.@Xs;it.ran=runCode(@j,copyMemoryJC@@),J4.@Xs,keptSteps);it.@C=disagreement(@N,it.ran,it.Jv,J4)@1it.@C@0')it.Ju=JuOf(@j,@D,it.ran,JXEvents(QO@Es')),mostEvents,@_s)J1it;}@Pnow={run:runs[0]||J:,input:J:,ran:J:,J.:J:,Q4:JQ,hasCounts:JQ,@X:-1,@@:'Jj',@4:0,@8:J:};
@!J4Now=Qg(JS?JS.J4:{@Xs:0,@Rs:@B)}@Pkey@Us={@U:/^(J)|@_|fun|and|let|if|else|unpack|pack|raise|try|handle|overlay|_|true|JQ)$/,JV:/^(@U|bool|packed|unpacked)$/,mem:/^(sram|Jj|JF)$/,Qo@DLines=@D.@lJ_\n$/,'')J$\n');
@!acts=actsOf(@D,J(@Plinked=@j@9Qg@b));@Hrun@aruns)if(run.Ju)@O@$[@.,@C]of run.Ju.@.s)@Hat@a@C)linkedJ!.add(at@PQ[=@j@9(it,@.)=>(linkedJ!.@x>0?J]linkedJ!]:actsFor(acts,it,@_s,@gsJ!,@c)));
@!candidates=Q[@9@C=>J]@b@C@9@D.@[At))]),reached=@bQ[.flat()@P@.sOf=@B),mayOf=@B);candidates@3(@C,@.)=>@C@3@[QTof=@CQ*1?@.sOf:mayOf;ofJ0@[,(of@=@[)||[]).concat(@.)Js@P@RNames=@RNamesOf(@N,@D,runs,Q[);
@y@,Names=J:;@!@RTitle=@6=>'L'+@6+(@RNamesJ3@6)?' '+@RNames@=@6)Qe;@*@YOf(@,){@,Names=@,Names||@,NamesOf(@D,J(,@c,@gs,Q[,@_s)J1@,+(@,NamesJ3@,)?' ('+@,Names@=@,)@?, JN)'Qe;}
@!QQ=@B),QrNames={M:'slot',L:'JX @-',W:'JE @-',X:'A15'};Jq@l('QQ')Jm@Z([A-Z])(c?)/g)@A@,='v'+it[1];QQJ0@,,(QQ@=@,)||[]).concat((QrNames[it[2]]||it[2])+(it[3]?' copied'Qe))@}coloured(@[){@% @[J_\/\/.*|[A-Za-z_]\w*|[0-9]\w*|[^\w/]+|\//g,@U=>{
@!JT=@U@e//')?'com':/^[0-9]/Qx@U)?'num':Object.keys(key@Us).Q%Jokey@Us[it]Qx@U))J1JT?'@M'+JT+'"Q>@U)+'@{':QI@UJs@}colouredCode(it){@% it.@Us@9(@U@f{@!@-=NUMBER@=@U)@1nQvQ{@M@U">'+@U+'@{';
if(@-!==Jf&&@-!==NONEQ{@Mr '+QrOf(@-)+'">'+@U+'@{'J1key@Us.memQx@U)?'@Mmem">'+@U+'@{':QI@UJs@? ')QdJTName=JT=>(JT@emove Jx')?'Jx':JT@emove')?'within':JTJ$ ')[0]);
@!sorted=@C=>J]@C].sort((x,y)=>x@>1)-y@>1)@P@rText=JoQIit)J_\bv@k\b/g,@,=>'<span Q.vJr@,+'">'+@,+'@{');@*@rRow(@Us,J[,@C@A@t=@C?@C.@x:0;@!bar=@C?'@Mh'+(@t>30?' over':'JN" style="--w:'+Qs100,@t*100/30)+'%">'+@t:'@Mh">';
@%'<div@Qrow point"'+(@C?' Q.JaJrsorted(@C)@? JN"':'JN>@Mn">@{'+bar+'@{@Mt">'+'  '.repeat(J[)+@rText(@Us)+'@{</div>'@}@rRows(@r@AJa=@B);walkLive(@r,(row,@C)=>JaJ0row,@b@C)));@%[@rRow('@R '+@r.@6+'('+@r.Jg@?, JN)',0,@b@r.Jg)),...@r.@|@9Q1>@rRow(@lOf(row),@7J[,Ja@=row)))];
}@!edgeOf=(@[,isPerhaps)=>(@[?' tied" style="--t:'+@[*67%360:isPerhaps?' may':''@P@[Row=@[=>@uL'+@[@Ptasks=[],later=window.requestIdleCallback||(does=>setTimeout(does,1));@*finish(){J}tasksQu)tasks.QN()()@}goOn(idle){do if(tasksQu)tasks.QN()();J}tasksQu&&idle&&idle.timeRemaining()>4);
if(tasksQu)later(goOn);}Q/'@Iprint',finish@PblockRows=24,blocks=[],blockOf=[];@*fill(n)JU!blocks[n])@%;@u@j-@|').children[n].innerHTML=blocks[n]@9Q1>row())@?');blocks[n]=J:@}rowOf(@.){@H@X of[-1,0,1])fill(blockOfJ!+@X);
@% @ui'+@.)@}@tCells(@A@ts=@;ran?QL@ts:new Float64Array(@j@(),most=@h1,...@ts@P@.s=@j@9(_,@.)=>(@i&&@tsJ!>0?'@Mh" style="--w:'+JRceil(100*@tsJ!/most)+'%">'+@tsJ!:'@Mh">JN@{');
@!@Rs=@RCounts(@N,@ts)@9Jo{@${J*,@Xs}=@;Q4?it:J4Now().@Rs@=it.@6)||{J*:0,@Xs:0}J1J*Qv?'not entered':'entered@zJ*,'timeJN,@z@Xs,'@X');}@P@[s=@B)@L@$[@[,of]of @.sOf@Asums=@B);
@H@.@aof)sumsJ0tieOf(@.),(sums@=tieOf(@.))||0)+@tsJ!);@[sJ0@[,@i?@h...sums.@,s())Qe;}@%{@.s,@Rs,@[s}@}@jRow(@.,Jp@A@C=J=;@%'<div@Qrow '+JTName(@jJ!.JT)+edgeOf(@CQ*1&&@C[0],@C@(>1)+'" id="iQX" Q.@.Jr@.+'"><a href=#iQX>'+@.
+'</a>'+Jp+'@Mt">'+colouredCode(@jJ!)+'@{</div>'@}showCode(Jps@A@|=[];@J@3({@6,J8}@f{@!end=Qi+1].J8:@j@(,@r=@c@=@6);@|@5Qg'<div@Qrow @R" Q.@RJr@6+'"Q>@RTitle(@6))+':<small>'+(JS?Jps.@Rs[n]:'JN</small></div>');
"#;

const SCRIPT_5: &str =
    r#"if(@r&&@uwith-@r').checked)@|@5...@rRows(@r)@9Q1>Qgrow))@L@y@.=J8;@.<end;@.+=1){blockOfJ!=JRfloor(@|@(/blockRows);@|@5Qg@jRow(@.,Jps.@.sJ!));}});blocks@(=0QG0;n<@|@(;n+=blockRows)blocks@5@|@>n,n+blockRows));
put('@j-@|',blocks@9Jo'<div@Qblock" style="--@|:'+it@(+'"></div>')@?'));rowOf(0)QG0;n<blocks@(;n+=8)tasks@5Qg{@O@yof=n;of<n+8;of+=1)fill(ofJs@}showSource(){put('@D-@|',@DLines@9(@[@f'<div@Qrow'+edgeOf(@.sOfJ3n+1)&&n+1,mayOfJ3n+1))+'" id="L'+(n+1)+'" Q.@[Jr(n+1)+'"><a href=#L'+(n+1)+'>'+(n+1)
+'</a>@Mh">@{@Mt">'+(coloured(@[)||' JN@{</div>')@?'))@}showCounts(@AJps=@tCells();Jzbody.@ntoggle('un@ted',!@i)@1@u@j-@|').JeChild===J:){showSource();showCode(Jps);}else{finish();all('#@j-@| .h')@3Jo{ifJCparentNode.@m@.)it.outerHTML=Jps.@.sJcparentNode.@m@.];});
all('#@j-@| small')@3(it@f{it@K=Jps.@Rs[n];});}@O@$[@[,@t]of Jps.@[s)@[Row(@[).children[1]@K=@t@}@UAt(@-,@X){@${@Xs,@Us}=QLhistory[@-];@ylow=0,high=@Xs@(;J}low<high@Amiddle=(low+high)>>1;
if(@Xs[middle]<=@X)low=middle+1;else high=middle;}if(low>0J/@Us[low-1]J1@-<J^@(?J^[@-]:@-===NUMBER@='B15')?QD:0QdQbed=@-s=>(@-s@(>2?@p[@-s[0]]+' to '+@p[@-s[@-s@(-1]]:@-s@9r=>@p[r])@? and '));
@*meaning(it@Ato=it.to===NONE?'JGflags':@pJcto],x=@pJcx],y=@pJcy];@!signs={ADD:'+',SUB:'-',AND:'&',OR:'|',XOR:'^',SHL:'<<',SHR:'>>',ROL:'<<<'}@1Jbalu'J/to+' = '+xJ,signsJc@v]J,y@1Jbun'J/to+' = '+JC@v@0COPY'?x:it.@v@0NOT'?'~'+x:xJ,signsJc@v]J,it.QN);
if(Jbimmed'J/to+' = 0x'+it.@,Qm+' ('+it.@,+')'@1Jbbr'@Awhen={ALWAYS:'',Z:' if JGresult was 0',NZ:" if JGresult wasn't 0",C:' if there was a carry',NC:' if there was no carry'};@%'goes on atQn.J9+whenJccondition]Qd@.=it.@@+' at '+x+JCoffset?' +Qn.offsetQe;
if(JbJWQ{JXs '+QbedJCQb)+' @4 '+@.@1JbJE'Q{J- '+QbedJCQb)+' to '+@.;@%JC@_Qv?'ends':'raises '+(@_s@=it.@_)||it.@_))+JC@t>0?' with '+Qbed(itJ7)Qe@}@.Tip(@.@Ait=@jJ!,@g=@gsJ!,[inA,inB]=JaCounts(JaJ!),out=[@.+':Qn.@l,meaning(it)];
if(@g&&@g.rowJKJT@0')J5@lOf(@g.row)J_\bv@k\b/g,@,=>@YOf(Q_).Jk@,))));J5...reasons(@.));J5'Live @I it: '+inA+'@a15 in A, '+inB+'@a15 in B.'@P@C=J=,isSeen=linkedJ!.@x>0@1isSeen)J5'From @[ '+@C@? and @[ JN@aJG@D, as JGinterpreter @gd in JGrun.');
@G@CQu)J5@C@(>1?'From one@aJG@[s '+@C@?, JN.':'From @[ '+@C[0]+'@aJG@D, JGonly one that may do @^')@1@i)J5'Ran@zQL@tsJ!,'timeJN, '+(100*QL@tsJ!/QL@Xs).toFixed(1)+' %@aJG@Xs.');
@!isNow=@i&&QL@.s[@;@X]===@.;@Hr@a@bJ]itJ7,...it.J-])@A@U=@g?@g.J-@=r)||@gJ7@=r):J:,@,=@U&&@U.@,?': '+@YOf(@U.@,):''@1r!==NONE&&(isNow||@,))J5@p[r]+@,+(isNow?' = '+hex(@UAt(r,@;@X))Qe);
J|out@T@[=>@[QM')@?\n')@}@,Tip(@,@Ahomes=QQ@=@,)@1!homesJ/@YOf(@,)+': no Qr is chosen for it; it is a copy@aanJY @,, or in transfer @-s.';@!Q}={'A':'is put into Qr A','B':'is put into Qr B','A copied':'is copied into Qr A, which costs 1','B copied':'is copied into Qr B, which costs 1'};
@% @YOf(@,)J,homes@9home=>Q}[home]||'is put into a '+home)@?, and JN. Costs are times JGweight@aJG@R, here 1.'+alternatives(@,)QdkeyAt=@.=>keyOf(@jJ!,@_s),tieOf=@.=>(linkedJ!.@x===1?keyAt(@.)J,J]linkedJ!][0]:keyAt(@.));
@!atPlaces=@.s=>(@.s@(>1?'at JG@.s ':'at @. ')+@.s@?, '@Pact=key=>(key@eraise')?'JGend by '+key:key);@*@[Tip(@[@A@.s=@.sOf@=@[)||[],JYs=mayOf@=@[)||[];@!out=J]@b@.s@9tieOf))]@9tieQTof=@.s@T@.=>tieOf(@.Qftie);
@!times=@i?' ran@zof.reduce((sum,@.)=>sum+QL@tsJ!,0),'timeJN, ':' 'J1act(keyAt(of[0]))+times+atPlaces(ofJn@H@[s@a@bJYs@9@.=>J=@?, ')))@Aof=JYs@T@.=>J=@?, 'Qf@[s);
J5act(keyAt(of[0]))J,atPlaces(of)+', @4 one@aJG@[s '+@[s);}Jqacts)JU@D.@[AtJCatQf@[&&!reachedJ3it.at))J5it.key+' has no QP@aits own: it is handled in JG@D, so JG@j goes on there, or it can\u2019t come about');J|out@?\n');
}@*light(@[s,@.s,scroll){all('.@7litJ`lit'));@[s@3@[=>@[Row(@[).QS));@.s@3@.=>rowOf(@.).QS))@1scroll)scroll.Q:nearest'})QdlightPlace=(@.,isFar)=>light(J=,J!,isFar&&J=Qu&&@[Row(J=[0]));
@*lightLine(@[,isFar@A@.s=J](@.sOf@=@[)||[]),...(mayOf@=@[)||[])];light(@.sQu?[@[]:[],@.s,isFar&&@.sQu&&rowOf(@.s[0]))@}JH@Us,@E){@utip').hidden=@Us@0'@1@Us@0')@%;@utip')@K=@Us;@${width,QC}=@utip')Q8;
@utip').style.Q;=@h4,Qs@E.clientX+14,innerWidth-width-4))+'px';@utip').style.top=(@E.clientY+18+QC>innerHeight?@h4,@E.clientY-QC-10):@E.clientY+18)+'px'@}pointAt(@E@Afind=@s=>@`'+@s+']'@P@,=Q%'v'),@-=@E.J9.closest('.t .r'),@.=Q%'@.'),@[=Q%'@['),point=Q%'Ja');
all('.r.sameJ`same'))@1@-)all('#@j-@| .r')@3@S.@ntoggle('same',it@K===@-@K))@1@,J/JH@,Tip(@,.@mv),@E)@1pointJ/JHseveral(point.@mJaJ$ ')@T@S)@(,'@,JN Ja: '+point.@mJaJ$ ')@9@YOf)@?, '),@E);
if(@.@An=@:@..@m@.);lightPlace(n)J1JH@.Tip(n),@E);}if(@[@An=@:@[.@m@[);lightLine(n)J1JH@[Tip(n),@E);}light([],[])J1JH'',@E);}@Hid of['@D-@|','@j-@|','@,s']){on(at(idQWpointAt);
on(at(idQJ@E=>{light([],[]);JH'',@EJn}Q,@D-@|'JB@!Q1@`@[]')@1row)lightLine(@:@7@m@[),trueJnQ,@j-@|'JB@!Q1@`@.]')@1!row)@%;@!@.=@:@7@m@.),@X=@i?QL@.sJh@.):-1;
lightPlace(@.,true)@1@X>=0)goTo(@XJnQ,with-@r'),'change',Qg{showCode(@tCells());finish()@1JS)goTo(@;@XJn
@!families={A:'Qr A',B:'Qr B',L:'JGJX @-s',LD:'JGJX @-s',S:'JGJE @-s',SD:'JGJE @-s'};@*JXersOf(@.,@-@Aout=[],later=[],@R=@gsJ!?@gsJ!.@R:-1;@yisHeld=trueQG@.+1;n<@j@(&&@gs[n]&&@gs[n].@R===@R;n+=1){
@!it=@j[n]@1later@on))isHeld=true@1isHeld&&itJ7@o@-))J5n)@1isHeldJKJ9>n)later@5it.J9)@1isHeld&&@gs[n].row&&@gs[n].@~jump'&&isLive(JaJcJ9],@-))J5n)@1it.J-@o@-)||!it.goesOn)isHeld=JQ;J|out;
}@*wantAt(@.,@-@Ait=@jJ!,@g=@gsJ!;@!JY=Jbalu'?JCx===@-?it.y:it.x):NONE,@U=@gJ7@=JY)@1Jbalu'Q{The QP at QX takes its two operands @4 two QQ, and JGJY one'+(@U&&@U.@,?', '+@YOf(@U.@,)+',':'JN is in '+families[QrOf(JY)]+'.';
if(JbJE'JKQb@o@-)Q{The JE at QX takes its @Us @4 JE @-s.'@1JbJW||JbJE'Q{The Ji@aJGaccess at QX has to be in A or B.'@1JbQ-Q{The end at QX takes its @Us @4 A0 on.'@1Jbbr'J/@RTitle(@g.@7J%)+', which QX goes on to, has it in '+families[QrOf(@-)]+'.';
@%'It is wanted at QX.'@}usesOf(@,@Aout=[];@H@g@a@gs)JU!@g||!@g.row||@j[@g.@.].JT@emove')||@j[@g.@.].JT@espill')J{;@!it=@j[@g.@.],{row}=@g@L@$[@-,@U]of @gJ7)JU@U.@,!==@,J{;
"#;

const SCRIPT_6: &str =
    r#"@!JY=Jbalu'?JCx===@-?it.y:it.x):NONE@1Jbalu')J5QrOf(JY));@GJbJE'JKQb@o@-))J5'S');@GJbQ-)J5'B');}if(@~jump'&&Q_)){J?@3(use@f{@!param=@c@=@7J%)?@c@=@7J%).Jg[n]:'',[home]=QQ@=param)||[''];
if(Q_).JkuseQf@,&&(home@0A'||home@0B'))J5home@0A'?'B':'A'Jn}J|out@}alternatives(@,@A@g=@gs.Q%@SJKrowJKJ6@o@,)),isRead=@g&&@g.@~JW,uses=usesOf(@,)@1usesQ*0Q{';@!cost=Qr=>(isRead?1:0)+uses@T@S===Qr||it@0S')@(;
@!QK=@gs@T@S&&@jJc@.].JT@0move Jx QQ'&&J]itJ7.@,s()].some(@U=>@U.@,===@,))@(;@%'\nWith JY @,s where they are, its uses would take@zcost('A'),'moveJN @4 A alone, and@zcost('B'),'moveJN @4 B alone. The @j makes@zQK,'moveJN@ait Jx QQ.';
}@*reasons(@.@Ait=@jJ!,@g=@gsJ!,out=[]@1!it.JTJ/out@1it.JT@0JO')@%['A JO that is put into a @-: JGchoice@aQQ @ts no cost.'];@$[@U]=@g?J]@gJ7.@,s(),...@g.J-.@,s()]:[],@,=@U&&@U.@,;@!what=@,?@YOf(@,):'A @,';
ifJCJT@espill'))@%[what+(JbJE'?' goes to a slot@aJF @@, since A and B are wanted for JYs: it costs 16.':' comes back @4 its slot@aJF @@: it costs 16.'),@,?QQOf(@,):''];@!isBetween=it.JT@emove Jx');J5what+' is moved @4 '+families[QrOfJCx)]+(isBetween?' to '+families[QrOfJCto)]+': it costs 1, times JGweight@aits @R, here 1.':' to anJY @- or by way@aA15: JGchoice@aQQ @ts no cost.'));
if(!@gJ/out;@!JXers=JXersOf(@.,it.to),[J%]=JXers@1J%!==Jf)J5wantAt(J%,it.to)@PQ9=it.x>=NUMBER@='L0')JKx<NUMBER@='S0'),over=Q9?@j.findIndex((JY@fn>@.&&JY@/JW&&JY.J-@oit.x)):-1@1over>=0&&JXers.some(n=>n>over))J5'The JX at '+over+' comes into '+@pJcx]+', too.');
if(@,)J5QQOf(@,))J1outQdQQOf=@,=>(QQJ3@,)?@,Tip(@,)Qe;
@!@8Of=@Us=>J]@Us]Qa@U=>[@U>>>24,@U>>>16&255,@U>>>8&255,@U&255]);@*shownStretches(@I,J.@Aout=[]@L@y@4=0;@4<@I@(&&out@(<512;@4+=8){@yisZero=@4>=64QG@4;isZero&&n<@4+8&&n<@I@(;n+=1)isZero=@I[n]Qv&&J.[n]Qv;
if(!isZero)J5@4);J|outQdshownBytes=@@=>@8Of(@@[@;@@].subarray(0,@;@@@0JF'?QD:@@[@;@@]@());@*showBytes(@A@I=shownBytes(@;input),J.=shownBytes(@;J.);@;@8={@I,J.QoJps=(@8,JY,@4,side)=>'@M'+side+'">'+@8@>@4,@4+8)@9(JM@f'<b Q.JMJr(@4+n)+'"'
+(JM!==JY[@4+n]&&side@0J.'?'@Qchanged"':'JN>'+hex(JM,2)+'</b>')@?JN@{'QU@8','<span>JM@{<span>@I@{<span>J.@{'+shownStretches(@I,J.)@9@4=>'<span>'+hex(@4,4)+'@{'+Jps(@I,J.,@4,'@I')+Jps(J.,@I,@4,'J.'))@?'));
}@*@VRows(Je,second@Akeyed=JZQTseen=@B)J1JZ@9Jd=>{seenJ0Jd.@Y,(seen@=Jd.@Y)||0)+1);@%[Jd.@YJ,seen@=Jd.@Y),Jd];});Qoold=@Bkeyed(Je)),pairs=keyed(second)@9([key,Jd])=>[old@=key)||J:,Jd,key]);
@!used=@bpairs@9@S[2]))@L@$[key,Jd]of old)if(!usedJ3key))pairs@5[Jd,J:,key])J1pairs@9([@I,J.])QTany=J.||@I,moved=@I&&J.&&@I.at!==J..at?', @4 JM '+@I.at:'';@!remark=@I&&J.?moved:J.?', new':', gone';
@!@|=any.@Vs@9(@V@f{@!same=Jd=>(Jd?Jd.@Vs.Q%(it,m)=>it.@s===@V.@s&&(m===n||it.@sQMreserved')):J:)J1@VRow(same(@I),same(J.)Jn@%'<tr@QJd"><td colspan="3"Q>any.@Y)+' at JM '+any.at+remark+'</td></tr>'+@|@?');
})@?')QdisRight=@V=>(@V.isRight===Jf?'':@V.isRight?' @Mright" @Y="right">\u2713@{':' @Mwrong" @Y="wrong">\u2717@{');@*@VRow(@I,J.@Aany=J.||@I,side=@V=>(@V?QI@V.@l)+isRight(@V):'\u2013'@PQ3=@I&&J.&&@I.@l===J..@l&&@I.isRight===J..isRight;
@!@8=[any.bit>>3,any.@xQv?0:((any.bit+any.@x-1)>>3)-(any.bit>>3)+1];@%'<tr'+(Q3?'':'@Qchanged"JN Q.@4Jr@8[0]+'" Q.@xJr@8[1]+'"><tdQ>any.@s)+(any.where?' <small>'+any.where+'</small>':'JN</td><td>'+side(@I)+'</td><td>'+(Q3?'':'\u2192 '+side(J.))+'</td></tr>';
}@*Qp(){@${@I,J.}=@;@8;@!ofRun=@;Q4?[JS.@@,JXMemory(JS.Jv)]:[],[was]=J]ofRun@9shownBytes),J.]QaJoQhit)@>0,1)@PJe=Qh@I,was)QU@Vs',@VRows(Je,QhJ.,Je[0])));
@!chosen=@uJ)Q+,J)=J(.Q%@S.@s===chosen),@4=4*@:@uJ)-atQ+@PJZ=@8=>(J)?[J)Group(@8,J),@4)]:J;sAt(@8,chosen,@4))QUJ)-@Vs',chosen&&@4<@I@(?@VRows(JZ(@I),JZ(J.))Qe@}showMemory(){
showBytes();Qp();@umemories-choice')JP'button')@3@SQVpressed',it@K.toLowerCase(Qf@;@@))@1@i)markAccesses()@}markAccesses(){@u@8')JP'.JX, .wroteJ`JW,'wrote'));
JqQLQ)){ifJC@X!==@;@X||it.@@!==@;@@J{QG4*it.at;n<4*JCat+it.@t);n+=1){@u@8')JP'[Q.JMJrn+'"]')@3Jp=>Jp.@naddJCQB?'wrote':'JW));}}}@!Q)Of=n=>(@i?QLQ)@T@S.@@===@;@@JKat<=n>>2&&n>>2<it.at+it.@t):[]);
@*JMTip(n,side@AJM=@;@8[side][n],bit=8*(n&3),QK=Q)Of(n@Pout=['JM '+nJ,side+' JGrun = '+JM+(JM>31&&JM<127?", '"+String.@4CharCode(JM)+"'":'JN; @U '+(n>>2)+', bits '+bit+' to '+(bit+7)];JqQK@>-6)@A@4=candidatesJc@.];
J5JCQB?'QY':'JXJN at @X '+JC@X+1)+' byQn.@.+(@4Q*1?', @[ '+@4[0]Qe);}if(QK@(>6)J5'and@zQK@(-6,'timeJN @I')J1out@?\n')@}runInput(Q4){@;Q4=Q4;@;ran=Q4?runCode(@j,copyMemory(@;input),mostSteps,keptSteps):JS.ran;
@!@C=Q4?'':JS.@C;@i=@C@0';@!end=@;ran?QLendJ_^Q2 @Z/,(Q}@fQ}+' ('+@_s@=@:n))+')'):'';@!Q}=@;Q4?'This is a run@aJGpage\u2019s own engine, not JGproved one: '+end
:@C?'The replay isn\u2019t shown, since '+@C+'. The proved run: '+@[s(JS.Jv)[0]:'\u2713 The replay agrees with JGproved run: '+end;@utrust').className=@C||Q4?'wrong':'right';@utrust')@K=Q}@1Q4@Aagain=JzcreateElement('button');again@K='back to JGproved run';
again.onclick=QgJ8With(JS);@utrust').append(' ',again);}@utime').hidden=!@i;@;J.=Q4?QL@@:JXMemory(JS.Jv);showCounts();showMemory()@1@i)showSteps()@}J8With(run){JS=run;@;@X=-1;@;input=copyMemory(run.@@);@uJv-@l')@K=run.Jv;
@uJ4-@l')@K=run.J4Text;all('#runs button')@3(it@fitQVselected',runs[n]===run))QUgiven',J^Q*0?'':'arguments '+J^@9(@U@f'<input aria-@R="argument '+(n+1)+'" max@)="8" Q.argJrn+'" @,Jrhex(@U)+'">')@? '));
runInput(JQ);}Q,given'),'change',@EQTJp=@E.J9@1!/^[0-9a-fA-F]{1,8}$/QxJp.@,))Jp.@,=hex(J^[@:Jp.@marg)]);J^[@:Jp.@marg)]=parseInt(Jp.@,,16);runInput(trueJn@*editByte(Jp@An=@:Jp.@mJM),@V=JzcreateElement('input');
@V.maxLength=2;@V.@,=Jp@K;@VQV@R','JM '+n);Jp.re@.Children(@V);@V.focus();@V.select();@yisLeft=JQ;@!leave=J%=>JUisLeft)@%;isLeft=true;@!JM=/^[0-9a-fA-F]{1,2}$/Qx@V.@,)?parseInt(@V.@,,16):@;@8.@I[n];
@!@Us=@;input[@;@@],QN=24-8*(n&3)@1JM===@;@8.@I[n]){Jp@K=hex(JM,2);}else{@Us[n>>2]=(@Us[n>>2]&~(255<<QN))|JM<<QN;runInput(true)QdJ.=J%?@u@8').querySelector('.@I [Q.JMJr(n+1)+'"]'):J:@1J.)editByte(J.);};@V.onblur=Qgleave(JQ);
"#;

const SCRIPT_7: &str =
    r#"@V.onkeydown=@E=>JU@E.key@0Enter'||@E.key@0Tab'&&!@E.QNKey){@E.pr@EDefault();leave(true);}@G@E.key@0Escape'){@V.@,='';leave(JQ);}};}Q,@8'JB@!Jp=@`JM]')@1!Jp)@%;@uJ)-atQ+=@:Jp.@mJM)>>2;
@!last=Q)Of(@:Jp.@mJM))@T@S.QB).pop()@1Jp.closest('.@I'))JUJp.JeElementChild===J:)editByte(Jp);}@Glast)goTo(last.@X);Qp(Jn@*lightBytes(@4,@x){all('#packet .litJ`lit'))QG@4;n<@4+@x;n+=1)@u@8')JP'[Q.JMJrn+'"]')@3@S.QS));
}@Hid of['@Vs','J)-@Vs']){on(at(idQW@EQTQ1@`@4]');lightBytes(row?@:@7@m@4):0,row?@:@7@m@x):0)@1row)@7QSJn}Q,@8'QW@EQTJp=@`JM]'),n=Jp?@:Jp.@mJM):-1;
JHJp?JMTip(n,Jp.parentNode.className):'',@E);lightBytes(@h0,n),n<0?0:1);@Hrow@aall('#packet tr[Q.@4]'))JU@:@7@m@4)<=n&&n<@:@7@m@4)+@:@7@m@x))@7QS);}});Q,packet'QJQglightBytes(0,0));
Q,@8'QJ@E=>JH'',@E));Q,J)'),'change',Qp);Q,J)-at'),'input',Qp);
@!J2=34,bandHeight=14,QZ=10,axisHeight=14,Q^=36,windowSteps=2000,@|Top=J2+bandHeight+4,tickWidth=60;@y@R=0;@!@RAt=@j@9(_,@.)=>{J}@R+1<@J@(&&@J[@R+1].J8<=@.)@R+=1J1@J[@R];}@P@d={@-s:[],@4:0,to:0};
@*showSteps(){@${ran}=now;@W@-s=@p@9(_,r)=>r)@Tr=>@qhistory[r].@XsQu||r<J^@();@WQC=@|Top+@W@-s@(*QZ+axisHeight;@u@d').style.QC=@WQC+2+'px';@u@X').max=@h0,@q@.s@(-1@PQY=@qQ)@T@S.QB).pop();
goTo(@;@X>=0?@;@X:QY?QY.@X:@q@.s@(-1)@}goTo(@X)JU!@i)@%;@;@X=@h0,Qs@X,QL@.s@(-1));@u@XQ+=@;@X;@!@.=QL@.s[@;@X];all('.@7atJ`at')@PQ1rowOf(@.),pane=@7closest('.scroll');
@7@nadd('at'@PtopIn=(it,box)=>itQ8.top-boxQ8.top+boxQy;paneQy=@h0,topIn(row,pane)-pane.clientHeight/2)@1J=Q*1@A@[=@[Row(J=[0]),@D=@[.closest('.scroll'),top=topIn(@[,@D);
@[.@nadd('at')@1top<@DQy||top+24>@DQy+@D.clientHeight)@DQy=@h0,top-@D.clientHeight/2)QdQY=J]@b@jJ!.J-)]@9r=>@p[r]+' = '+hex(@UAt(r,@;@X))@Prest=QL@Xs===QL@.s@(?'':' (JGJe '+QL@.s@(+' are shown)';
@uwhere')@K='@X '+(@;@X+1)+'@a'+QL@Xs+rest+'   @. QX   '+@jJ!.@l+(QY@(?'   '+QY@?  ')Qe;markAccesses();draw()@}draw(@Acanvas=@u@d'),css=getComputedStyle(JzdocumentElement),colour=@s=>css.getPropertyValue('--'+@s)Q`;
@${@.s}=@;ran,width=canvas.clientWidth,{QC}=@d;@!ratio=window.devicePixelRatio||1;canvas.width=width*ratio;canvas.QC=QC*ratio;@!g=canvas.getCon@l('2d');g.scale(ratio,ratio);g.font='9px ui-monospace, monospace';@W@4=JRfloor(@;@X/windowSteps)*windowSteps;@Wto=Qs@.s@(,@W@4+windowSteps);
@WQ9=(width-Q^)/@h1,@Wto-@W@4@Px=@X=>Q^+(@X-@W@4)*@WQ9,Q9=@h1,@WQ9-(@WQ9>3?.5:0)@Pinks={A:Q(A'),B:Q(B'),L:Q(L'),LD:Q(L'),S:Q(S'),SD:Q(S')Qounit=J2/30;@!@ts=@.s@>@W@4,@Wto)@9@.=>JaCounts(JaJ!));
JI.75;Jwinks.A;@ts@3([inA]@fJL@W@4+n),J2-inA*unit,Q9,inA*unit));Jwinks.B;@ts@3([inA,inB]@fJL@W@4+n),J2-(inA+inB)*unit,Q9,inB*unit));JI1;JwQ(dim');@H@t of[15,30]){
g.fillRect(Q^,J2-@t*unit,width-Q^,.6);Jl@t,Q^-13,@h7,J2-@t*unit+3));}Jl'Ja',2,J2-2);Jl'@R',2,J2+13);drawLabels(g,x);drawAxis(g,x,QC-3);@W@-s@3(@-@f{@!top=@|Top+n*QZ;
JwQ(@l');Jl@p[@-],2,top+8);Jwinks[QrOf(@-)];JI.28;@y@4=-1@L@y@X=@W@4;@X<=@Wto;@X+=1@AisOn=@X<@Wto&&isLive(Ja[@.s[@X]],@-)@1isOn&&@4<0)@4=@X@1!isOn&&@4>=0){JL@4),top+1,(@X-@4)*@WQ9,QZ-2);
@4=-1;}}JI1;@H@X@aQLhistory[@-].@Xs)if(@X>=@W@4&&@X<@Wto)JL@X),top+1,Q9,QZ-2JnJI.45;JwQ(@l');JL@;@X),0,@h1.5,Qs@WQ9,4)),QC)@}drawLabels(g,x){@${@.s}=@;ran;
@O@y@X=@W@4,to=@X;@X<@Wto;@X=to@A@R=@RAt[@.s[@X]],@Y=@RTitle(@R.@6);J}to<@Wto&&@RAt[@.s[to]]===@R)to+=1;@!room=(to-@X)*@WQ9,Q}=[@Y,'L'+@R.@6].Q%@S@(*5.5+4<room);JI@R.@6%2?.35:.2;
JL@X),J2+4,@h1,room-1),bandHeight-2);JI1@1Q})JlQ},x(@X)+3,J2+13);}}@*drawAxis(g,x,bottom@Aten=10**JRceil(JRlog10(tickWidth/@WQ9)),every=@h1,[ten/5,ten/2,ten].Q%@S*@WQ9>=tickWidth));Jl'@X',2,bottom);
@O@y@6=JRfloor(@W@4/every)*every+every;@6<=@Wto;@6+=every){JL@6-1),bottom-10,1,3);Jl@6,x(@6-1)+3,bottom);}}@*@XAt(@E@A@X=@W@4+JRfloor((@E.offsetX-Q^)/@WQ9)J1@E.offsetX>=Q^&&@X<@Wto?@X:-1;
}Q,@d'QW@EQT@X=@XAt(@E),@-=@W@-s[JRfloor((@E.offsetY-@|Top)/QZ)]@1@X<0J/JH'',@E@P@.=QL@.s[@X],[inA,inB]=JaCounts(JaJ!),head='@X '+(@X+1)+', '+@RTitle(@RAtJ!.@6)+', @. QX: '+@jJ!.@l;
if(@-===Jf||@E.offsetY<@|TopJ/JHhead+'\nJa: '+inA+'@a15 in A, '+inB+'@a15 in B',@E)J1JHhead+'\n'+@p[@-]+' = '+hex(@UAt(@-,@X))+(isLive(JaJ!,@-)?', Ja':', not JX again @I it is QY'),@EJnQ,@d'QJ@E=>JH'',@E));
Q,@d'JBif(@XAt(@E)>=0)goTo(@XAt(@E)JnQ,@X'),'input',QggoTo(@:@u@XQ+)));@uback').onclick=QggoTo(@;@X-1);@uon').onclick=QggoTo(@;@X+1);Q/'re@x',QgJU@i)draw(Jn@Hmedia of['print','(prefers-color-scheme: dark)'])on(matchMedia(media),'change',QgJU@i)draw(Jn
@*walkLabels(@Aorder=[],Q!=@B),loops=@b@Pvisit=@6=>{Q!J0@6,'QA');@HJ% ofJ](@c@=@6)||{J%:[]}).J%].reverse())JUQ!@=J%)@0QA')loops.add(@6J,J%);@G!Q!J3J%)&&@cJ3J%))visit(J%);}Q!J0@6,'done');
order.unQN(@6);};@H@6 of[0,...@c.keys()])if(@cJ3@6)&&!Q!J3@6))visit(@6);@%{order,loops}@}showLabels(){@${order,loops}=walkLabels(),gap=36,high=24;@!Q}=order@9@6QTJ*=(J4Now().@Rs@=@6)||{J*:0}).J*,points=@c@=@6).@|@TQ1>@7@[QM}')@(;
@% @RTitle(@6)+':@zpoints,'point')+(JS?', entered@zJ*,'time')Qe;}@PQ9=JRceil(@h60,...Q}@9@S@(*7.4+20))),@|=@Border@9(@6@f[@6,n*gap+22])@Preach=(@4,to)=>Qs140,24+JRabs(@|@=to)-@|@=@4))/3.5);
@!arcs=orderQa@4=>J]@c@=@4).J%]@Tto=>@|J3to))@9to=>({@4,to,Qq:loopsJ3@4J,to)}))@Pmargin=Qq=>@h8,...arcs@T@S.Qq===Qq)@9Jo.8*reachJC@4,it.to))@PQ;=margin(true@Pmost=@h1,...J]J4Now().@Rs.@,s()]@9@S.J*));
@yout='<svg role="img" aria-@R="@Rs and jumps" widthJrJRceil(Q;+Q9+margin(JQ))+'" QCJr(order@(*gap+10)+'"><defs>'
+['on','loop']@9JT=>'<marker id="arrow-'+JT+'"@Q'+JT+'" viewBox="0 0 8 8" refX="7" refY="4" markerWidth="7" markerHeight="7" orient="auto"><path d="M0 0L8 4L0 8z"/></marker>')@?JN</defs>'@L@${@4,to,Qq}of arcs@Ay=@|@=@4)Qz=@|@=to),JT=Qq?'loop':'on',side=Qq?Q;:Q;+Q9,middle=Q;+Q9/2;
@!bend=side+(Qq?-1:1)*reach(@4,to@Ppath=!Qq&&end===y+gap?'M'+middleJ,(y+high/2)+'L'+middleJ,(end-high/2)
:'M'+sideJ,(y+4)+'C'+bendJ,(y+4)J,bendJ,(end-4)J,sideJ,(end-4);out+='<path@Q'+JT+'" dJrpath+'" marker-end="url(#arrow-'+JT+')"/>';}order@3(@6@f{@!y=@|@=@6),isHot=JS&&(J4Now().@Rs@=@6)||{J*:0}).J*===most;out+='<g Q.goJr@6+'"><rect@Q'+(isHot?'hot':'JN" xJrQ;+'" yJr(y-high/2)+'" widthJrQ9+'" QCJrhigh+'" rx="4"/><@l xJr(Q;+10)+'" yJr(y+4)+'"Q>Q}[n])+'</@l></g>';
"#;

const SCRIPT_8: &str =
    r#"})QUgraph',out+'</svg>');}Q,graph'JB@!box=@`go]');finish()@1box)Je('[Q.@RJrbox.@mgo+'"]').Q:nearest'}Jn@*showRuns(){@uruns').hidden=runs@(<2QUruns',runs@9run=>'<button role="tab" @YJrQIrun.@Y)+'"Q>baseName(run.@Y))+'</button>')@?'));
Q,runs'JB@!n=J]@uruns').children]Jh@E.J9)@1n<0)@%;J8With(runs[n]);showLabels();showSummary(Js@}showSummary(@A@Xs=JS?';@zJS.J4.@Xs,'@X'):'';@usummary-@[').innerHTML=QI@[s(@l('summary'))@9@SQ`)@?; ')+@Xs)J_@k/g,'<b>$&</b>');
}@*showValues(){@ymost=0;@H@r@a@c.@,s())walkLive(@r,(_,@C)=>{most=@hmost,@C.@xJn@u@,s-@g')@K='At most@zmost,'@,')+(most===1?' is':' areJN Ja at once. Banks A and B have 15 @-s each for @,s. The QQ are those@aJGreport that JGproof checks.';
@!homed=@B)@L@$[@,,homes]of QQ)homedJ0homes@?, '),(homed@=homes@?, '))||[]).concat(@,))QU@,s',J]homed]@9([homes,@,s])=>'<p><b@Qr '+homes[0]+'">'+homes+':</b> '+@,s@9@,=>'<span Q.vJr@,+'"Q>@YOf(@,))+'@{')@? JN</p>')@?'));
}@*showPage(){Jz@Y=baseName(@s)+' \u00b7 Nova';@u@Y')@K=baseName(@s);@u@Y').@Y=@s;showSummary();@u@j-aside')@K=JS?'with how often each QP ran':'';@u@D-aside')@K=JS?'with how often each access, raise and end came about':'';
@u@xs-@l')@K=@l('@xs')QUkey',[['A','Qr A'@]B','Qr B'@]L','JX @-s L and LD'@]S','JE @-s S and SD']]@9([Qr,Q}])=>'@Mr '+Qr+'">\u25a0 '+Q}+'@{')@?JN<span>JGstrip @ts what is Ja in A and B,@a15 each@{');Jzbody.@ntoggle('@F',JS===J:);
if(JS===J:J/showCounts();@;@@=JS.@@.JjQu?'Jj':'sram'QUmemories-choice',['Jj','sram','JF']@9Jo'<button>'+(it@0JF'?it:it.toUpperCase())+'</button>')@? '));Q,memories-choice'JBif(@E.J9.tagNameQMBUTTON')@%;
@;@@=@E.J9@K.toLowerCase();showMemory();}@Poptions=(@Y,@ss)=>(@ssQu?'<optJd @RJr@Y+'">'+@ss@9Jo'<optionQ>it)+'</option>')@?JN</optJd>'QeQUJ)','<option @,="">none</option>'+options('J(@aJG@D',J(@9@S.@s))+options('J;s',Object.keys(HEADERS)));
showRuns()J1J8With(JS)@}followLink(@A@C=/^#([Li])@Z$/JDlocation.hash),Q1@C?(@C[1]@0L'?@[Row:rowOf)(@C[2]):J:@1row)@7Q:center'});}showPage();tasks@5showLabels,showValues);later(goOn);Q/'hashchange',followLink);
followLink();
"#;
